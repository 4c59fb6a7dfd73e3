//! Derivations over tokens of several lengths, in order, told by hand.
use crate::readings::{Row, Wanted};
use grammar_model::Ranking;
use row_readings::{Input, Language, are_rows};
use std::test::Fail;

// S -> a b | c
const SHORT_CUT: Language = Language {
    names: &["S", "a", "b", "c"],
    lines: &[(0, &[1, 2], 0, false), (0, &[3], 0, false)],
    lists: &[],
};

// S -> B x, B -> x
const PAIR: Language = Language {
    names: &["S", "B", "x"],
    lines: &[(0, &[1, 2], 0, false), (1, &[2], 0, false)],
    lists: &[],
};

static ROWS: &[Row<'static>] = &[
    (
        SHORT_CUT,
        Input::Spans(&[(1, 0, 2), (3, 0, 3), (2, 2, 1)], 3),
        Ranking::Rule,
        Wanted::Trees(&["0(a0-2 b2)", "1(c0-3)"]),
    ),
    // The later start of the last part comes first.
    (
        PAIR,
        Input::Spans(&[(2, 0, 1), (2, 0, 2), (2, 1, 2), (2, 2, 1)], 3),
        Ranking::Rule,
        Wanted::Trees(&["0(1(x0-2) x2)", "0(1(x0) x1-3)"]),
    ),
];

#[test]
fn derivations_over_lengths_come_in_order(rt: HostRuntime) -> Result<(), Fail> {
    assert!(rt; are_rows(rt.alloc(), ROWS)?);
    Ok(())
}
