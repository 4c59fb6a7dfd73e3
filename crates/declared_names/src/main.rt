//! Tells whether the names of a text are in order: each declared before it is used, and once; or the first that is not, with its place.
//! It shows a semantics with a state.
#![tactic(auto)]

mod fault;
mod order;
mod scope;
mod stop;

use crate::order::look_at;
use slif_parser::Grammar;
use std::io;
use std::io::Read;

const GRAMMAR: &str = "lexeme default = latm => 1
Text ::= Statement+
Statement ::= Declaration (';')
    | Use ('=') Sum (';')
Declaration ::= ('var') Name
Sum ::= Operand
    | Sum ('+') Operand
Operand ::= Use
    | Number
Use ::= Name
Name ~ [a-z]+
Number ~ [0-9]+
:discard ~ spaces
spaces ~ [\\s]+
";

/// Writes whether a text is in order, or why it is not.
fn tell(rt: &HostRuntime, grammar: &Grammar, text: &[u8]) -> io::Result<()> {
    match look_at(rt.alloc(), grammar, text) {
        Ok(()) => println!(rt; "each name is declared before it is used, and once"),
        Err(stop) => println!(rt; "{stop}"),
    }
}

fn main(rt: HostRuntime) -> Result<(), anyhow::Error> {
    let mut text = Vec::new(rt.alloc());
    rt.stdin().read_to_end(&mut text)?;
    let grammar = Grammar::from_text(rt.alloc(), GRAMMAR.as_bytes())?;
    let told = tell(&rt, &grammar, &text);
    drop(grammar);
    Ok(told?)
}
