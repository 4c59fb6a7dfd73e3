//! A calculator: it writes the value of each of its words, or why it has none. It shows how a program reads by a grammar of its own.
#![tactic(auto)]

ghost use Rattle.std.specs.Prelude.{◌≡◌, IfOk, IfErr};
ghost use Rattle.grammar_model.specs.declared.Ranking.TheVariants.{Rule};
ghost use Rattle.calculator.specs.Expressions.{IsFirstWorth, IsFirstFault, IsFaultOfReading, IsWorth, IsFaultOf};

mod arithmetic;
mod error;
mod function;

use crate::arithmetic::Arithmetic;
use crate::error::CalculationError;
use slif_parser::{Forest, Grammar, Ranking, Reading};
use std::alloc::Global;
use std::{env, io};

const GRAMMAR: &str = "lexeme default = latm => 1
Sum ::= Number
    | ('(') Sum (')') assoc => group
    | Name ('(') Sum (')') assoc => group
   || '-' Sum
   || Sum '*' Sum
    | Sum '/' Sum
   || Sum '+' Sum
    | Sum '-' Sum
Number ~ [0-9]+
Name ~ [a-z]+
:discard ~ spaces
spaces ~ [\\s]+
";

/// The value of an expression.
fn value_of(alloc: Global, grammar: &Grammar, expression: &str) -> Result<i64, CalculationError>
    ensures worth { IfOk result (IsWorth grammar.now expression.now) }
    ensures fault { IfErr result (IsFaultOf grammar.now expression.now) }
{
    let reading = grammar.read(alloc, expression.as_bytes())?;
    let value = value_of_reading(alloc, &reading);
    drop(reading);
    value
}

fn value_of_reading(alloc: Global, reading: &Reading<'_>) -> Result<i64, CalculationError>
    ensures worth { IfOk result (IsFirstWorth reading.now) }
    ensures fault { IfErr result (IsFaultOfReading reading.now) }
{
    let forest = reading.forest(alloc, Ranking::Rule)?;
    let value = first_value(alloc, &forest);
    drop(forest);
    value
}

/// The value of the first derivation. There is one, and the grammar gives no more.
fn first_value(alloc: Global, forest: &Forest<'_>) -> Result<i64, CalculationError>
    requires { forest.now.forest.ranking ≡ Rule }
    ensures worth { IfOk result (IsFirstWorth forest.now.read) }
    ensures fault { IfErr result (IsFirstFault forest.now.read) }
{
    let mut derivations = forest.derivations(alloc)?;
    if !derivations.next()? {
        unreachable!();
    }
    derivations.known();
    derivations.fold(alloc, &mut Arithmetic)?.number()
}

/// Writes the value of an expression, or why it has none.
fn tell(rt: &HostRuntime, grammar: &Grammar, expression: &str) -> io::Result<()> {
    match value_of(rt.alloc(), grammar, expression) {
        Ok(value) => println!(rt; "{expression} = {value}"),
        Err(error) => println!(rt; "{expression}: {error}"),
    }
}

fn tell_all(rt: &HostRuntime, grammar: &Grammar) -> io::Result<()> {
    for expression in env::args(rt)?.skip(1) {
        tell(rt, grammar, &expression)?;
    }
    Ok(())
}

fn main(rt: HostRuntime) -> Result<(), anyhow::Error> {
    let grammar = Grammar::from_text(rt.alloc(), GRAMMAR.as_bytes())?;
    let told = tell_all(&rt, &grammar);
    drop(grammar);
    Ok(told?)
}
