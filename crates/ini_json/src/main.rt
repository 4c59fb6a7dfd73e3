//! Reads an INI file from standard input and writes it as JSON: an object of sections, each an object of names and texts.
//! It shows a semantics that makes a syntax tree, and what is written of the tree.
#![tactic(auto)]

mod json;
mod node;
mod reading;
mod stop;
mod tree;

use crate::reading::json_of;
use crate::stop::Stop;
use slif_parser::Grammar;
use std::io::Read;
use std::process::ExitCode;

const GRAMMAR: &str = "lexeme default = latm => 1
file ::= <empty lines>
    | <empty lines> sections <empty lines>
sections ::= section+ separator => ends proper => 1
section ::= ('[') name (']') entries
entries ::= entry*
entry ::= (ends) name ('=') text
text ::= value
text ::=
<empty lines> ::= eol*
ends ::= eol+
name ~ [\\w.-]+
value ~ bit+ separator => gap proper => 1
bit ~ [^\\s;#]+
gap ~ [ \\t]+
eol ~ [\\n] | [\\r] [\\n]
:discard ~ gap
:discard ~ comment
comment ~ [;#] <to the end>
<to the end> ~ [^\\n]*
";

fn run(rt: &HostRuntime) -> Result<(), Stop> {
    let mut text = Vec::new(rt.alloc());
    rt.stdin().read_to_end(&mut text)?;
    let grammar = Grammar::from_text(rt.alloc(), GRAMMAR.as_bytes())?;
    let json = json_of(rt.alloc(), &grammar, &text);
    drop(grammar);
    println!(rt; "{}", json?)?;
    Ok(())
}

fn main(rt: HostRuntime) -> ExitCode {
    match run(&rt) {
        Ok(()) => ExitCode::from(0),
        Err(stop) => {
            let _ = eprintln!(rt; "ini_json: {stop}");
            ExitCode::from(stop.status())
        }
    }
}
