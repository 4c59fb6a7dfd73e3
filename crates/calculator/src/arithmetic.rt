// What the parts of an expression are worth.
ghost use Rattle.std.specs.Prelude.{◌≡◌, Err};
ghost use Rattle.calculator.specs.Worth.{IsFitting, IsNumberOf, NumberGives, NameGives, TokenGives, OperationGives, RuleGives};

use crate::error::CalculationError;
use crate::function::Function;
use slif_parser::{RuleId, Semantics, SymbolId, Token};

// The rules of two numbers, by their numbers: from 0, in the order of the grammar's text.
const PRODUCT: u32 = 4;

const QUOTIENT: u32 = 5;

const SUM: u32 = 6;

const DIFFERENCE: u32 = 7;

/// The value of a part: a number; or a function or a sign, with its column.
#[derive(Clone, Copy, Debug)]
pub(crate) enum Value {
    Number(i64),
    Function { function: Function, column: u32 },
    Sign { column: u32 },
}

impl Value {
    /// The number, where it is one.
    pub(crate) fn number(self) -> Result<i64, CalculationError>
        ensures { IsNumberOf self result }
    {
        match self {
            Value::Number(number) => Ok(number),
            Value::Function { .. } | Value::Sign { .. } => Err(CalculationError::NoNumber),
        }
    }
}

/// Arithmetic of whole numbers of 64 bits.
#[derive(Clone, Copy)]
pub(crate) struct Arithmetic;

impl Semantics for Arithmetic {
    type Value = Value;

    type Error = CalculationError;

    ghost use Rattle.calculator.specs.declared.error.CalculationError.TheVariants.{NoNumber};

    ghost token_gives = { λ before after symbol name token result. TokenGives name token result };

    ghost nulled_gives = { λ before after symbol name result. result ≡ Err NoNumber };

    ghost rule_gives = { λ before after rule name children result. RuleGives rule children result };

    fn token(&mut self, token: Token<'_>) -> Result<Value, CalculationError> {
        let column = token.start.saturating_add(1);
        match token.name {
            "Number" => whole_number(token.text, column),
            "Name" => function_named(token.text, column),
            _ => Ok(Value::Sign { column }),
        }
    }

    // No symbol of the grammar spans nothing.
    fn nulled(&mut self, _symbol: SymbolId, _name: &str) -> Result<Value, CalculationError> {
        Err(CalculationError::NoNumber)
    }

    fn rule(
        &mut self,
        rule: RuleId,
        _name: &str,
        children: Vec<Value>,
    ) -> Result<Value, CalculationError>
        ensures { RuleGives rule children.items result }
    {
        match children.as_slice() {
            [Value::Number(number)]
            | [
                Value::Sign { .. },
                Value::Number(number),
                Value::Sign { .. },
            ] => { Ok(Value::Number(*number)) }
            [
                Value::Function { function, column },
                Value::Sign { .. },
                Value::Number(number),
                Value::Sign { .. },
            ] => function.of(*number, *column),
            [Value::Sign { column }, Value::Number(number)] => {
                fitting(number.checked_neg(), *column)
            }
            [
                Value::Number(left),
                Value::Sign { column },
                Value::Number(right),
            ] => { operation(rule.0, *left, *right, *column) }
            _ => Err(CalculationError::NoNumber),
        }
    }
}

fn whole_number(text: &str, column: u32) -> Result<Value, CalculationError>
    ensures { NumberGives text.now column result }
{
    match text.parse::<i64>() {
        Ok(number) => Ok(Value::Number(number)),
        Err(_) => Err(CalculationError::TooLarge { column }),
    }
}

fn function_named(name: &str, column: u32) -> Result<Value, CalculationError>
    ensures { NameGives name.now column result }
{
    match Function::named(name) {
        Some(function) => Ok(Value::Function { function, column }),
        None => Err(CalculationError::NoFunction { column }),
    }
}

/// What was computed, or that it is too large.
pub(crate) fn fitting(number: Option<i64>, column: u32) -> Result<Value, CalculationError>
    ensures { IsFitting number column result }
{
    match number {
        Some(number) => Ok(Value::Number(number)),
        None => Err(CalculationError::TooLarge { column }),
    }
}

fn operation(rule: u32, left: i64, right: i64, column: u32) -> Result<Value, CalculationError>
    ensures { OperationGives rule left right column result }
{
    match rule {
        PRODUCT => fitting(left.checked_mul(right), column),
        QUOTIENT if right == 0 => Err(CalculationError::DivisionByZero { column }),
        QUOTIENT => fitting(left.checked_div(right), column),
        SUM => fitting(left.checked_add(right), column),
        DIFFERENCE => fitting(left.checked_sub(right), column),
        _ => Err(CalculationError::NoNumber),
    }
}
