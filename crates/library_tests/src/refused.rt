//! What is told of grammars and inputs that are refused.
use crate::cases::{Case, SUM, is_so};
use slif_parser::Place;
use std::test::Fail;

const UNKNOWN: Case = Case {
    grammar: b"lexeme default = latm => 1\nSum ::= Sum '+' Number | Number\n",
    message: "grammar: no rule for Number at line 2 column 17",
    place: Some(Place {
        line: 2,
        column: 17,
    }),
    ..SUM
};

#[test]
fn a_grammar_is_refused_with_its_place(rt: HostRuntime) -> Result<(), Fail> {
    assert!(rt; is_so(rt.alloc(), &UNKNOWN)?);
    Ok(())
}

const STOPPED: Case = Case {
    input: b"12+*",
    message: "input stopped at line 1 column 4; found: none; expected: Number",
    place: Some(Place { line: 1, column: 4 }),
    ..SUM
};

#[test]
fn reading_stops_with_what_could_come(rt: HostRuntime) -> Result<(), Fail> {
    assert!(rt; is_so(rt.alloc(), &STOPPED)?);
    Ok(())
}

const ENDED: Case = Case {
    input: b"12+",
    message: "input ended without a derivation; expected: Number",
    ..SUM
};

#[test]
fn an_input_without_a_derivation_tells_what_could_come(rt: HostRuntime) -> Result<(), Fail> {
    assert!(rt; is_so(rt.alloc(), &ENDED)?);
    Ok(())
}
