//! Derivations of an ambiguous input, one after another, each with its value.
use crate::cases::{Case, SUM, is_so};
use std::test::Fail;

const DIFFERENCES: Case = Case {
    grammar: b"lexeme default = latm => 1\nS ::= S '-' S | Number | Minus\nMinus ::= '-' Number\nNumber ~ [0-9]+\n",
    ..SUM
};

// Inputs, and the values of all their derivations: that with the later right operand comes first.
static ROWS: [(&[u8], &[i64]); 2] = [(b"9-3-2", &[4, 8]), (b"7--2", &[9])];

#[test]
fn each_derivation_has_its_value(rt: HostRuntime) -> Result<(), Fail> {
    for (input, values) in &ROWS {
        let case = Case {
            input,
            values,
            ..DIFFERENCES
        };
        assert!(rt; is_so(rt.alloc(), &case)?);
    }
    Ok(())
}
