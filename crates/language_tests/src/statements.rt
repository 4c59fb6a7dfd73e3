//! Statements of each form, and where others are refused.
use crate::texts::parsed;
use dsl_reader::StatementRefusal;
use slif_base::{Chars, chars_of};
use std::alloc::Global;

fn count(alloc: Global, chars: &Chars) -> Result<usize, StatementRefusal> {
    let description = parsed(alloc, chars)?;
    Ok(description.statements.len())
}

// How many statements a text has, or where the first bad one begins.
fn read(alloc: Global, text: &str) -> Result<usize, StatementRefusal> {
    match chars_of(alloc, text.as_bytes()) {
        Ok(chars) => count(alloc, &chars),
        Err(_) => Err(StatementRefusal::NoMemory),
    }
}

static ACCEPTED: &[(&str, usize)] = &[
    ("", 0),
    ("; ;", 0),
    (":start ::= <a  b>", 1),
    (":default ::= action => ::first", 1),
    ("lexeme default = latm => 1", 1),
    (":lexeme ~ S priority => -1, latm => 0", 1),
    (":discard ~ [\\s] ,", 1),
    ("S ::=", 1),
    ("S ::= action => [name,values] ,", 1),
    ("S ::= [a]* separator => <c>", 1),
    ("S ~ T+ proper => 1", 1),
    (
        "S ::= 'a' ('b' T) null-ranking => low | 'c' || T rank => 1",
        1,
    ),
    ("S ~ 'a' | lexeme default", 1),
    ("S ::= 'a'; T ::= 'b' U ~ 'c'", 3),
    ("S ::= T lexeme default = :start ::= S", 3),
];

static REFUSED: &[(&str, usize)] = &[
    ("S ::= 'a'*", 0),
    ("S ::= 'a' ; 'b'", 12),
    ("S ~ 'a' || 'b'", 0),
    ("S ::= ()", 0),
    ("S ::= (('a'))", 0),
    ("S ::= 'a' | | 'b'", 0),
    ("T ~ 'b' S ::= 'a' |", 8),
    ("S ::= 'a'\n:start ::= 'b'", 10),
    (":start ~ S", 0),
    (":other ::= S", 0),
    ("S ::= rank => => 1", 0),
    ("lexeme default latm => 1", 0),
];

#[test]
fn statements_of_each_form(rt: HostRuntime) {
    for (text, count) in ACCEPTED {
        assert!(rt; read(rt.alloc(), text) == Ok(*count));
    }
}

#[test]
fn refused_at_their_places(rt: HostRuntime) {
    for (text, at) in REFUSED {
        assert!(rt; read(rt.alloc(), text) == Err(StatementRefusal::BadStatement { at: *at }));
    }
}
