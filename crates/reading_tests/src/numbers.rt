//! The numbers of readings: their places, the items that are kept, the nodes of their forests, and the hidden items that are given for
//! them, all counted from the rules of item sets.
use crate::readings::{Row, Wanted};
use grammar_model::Ranking;
use row_readings::{Input, LOW, Language, SUM, are_rows};
use std::test::Fail;

// L -> x L | x
const RIGHT: Language = Language {
    names: &["L", "x"],
    lines: &[(0, &[1, 0], 0, false), (0, &[1], 0, false)],
    lists: &[],
};

// S -> a | a S, S ->
const TWO_WAYS: Language = Language {
    names: &["S", "a"],
    lines: &[
        (0, &[1], 0, false),
        (0, &[1, 0], 0, false),
        (0, &[], 0, false),
    ],
    lists: &[],
};

// S -> A, A -> a S A, A ->
const MIXED: Language = Language {
    names: &["S", "A", "a"],
    lines: &[
        (0, &[1], 0, false),
        (1, &[2, 0, 1], 0, false),
        (1, &[], 0, false),
    ],
    lists: &[],
};

static ROWS: &[Row<'static>] = &[
    (
        SUM,
        Input::Row(&[1, 2, 1, 2, 1]),
        Ranking::Rule,
        Wanted::Numbers([5, 25, 13, 0]),
    ),
    // Three items in the first set and five in each other; at the last place all steps but the topmost are hidden.
    (
        RIGHT,
        Input::Row(&[1, 1, 1, 1, 1, 1, 1, 1, 1, 1]),
        Ranking::Rule,
        Wanted::Numbers([10, 53, 20, 9]),
    ),
    // Two ways lead to one hidden item.
    (
        TWO_WAYS,
        Input::Row(&[1, 1]),
        Ranking::Rule,
        Wanted::Numbers([2, 16, 6, 1]),
    ),
    // Of the nodes that end at a place another than the first has the least origin.
    (
        MIXED,
        Input::Row(&[2, 2, 2]),
        Ranking::Rule,
        Wanted::Numbers([3, 35, 18, 3]),
    ),
    (
        LOW,
        Input::Row(&[2]),
        Ranking::Rule,
        Wanted::Numbers([1, 11, 5, 0]),
    ),
    // Nothing is read, and the start is nullable.
    (
        LOW,
        Input::Row(&[]),
        Ranking::Rule,
        Wanted::Numbers([0, 6, 0, 0]),
    ),
];

#[test]
fn readings_have_the_numbers_of_the_rows(rt: HostRuntime) -> Result<(), Fail> {
    assert!(rt; are_rows(rt.alloc(), ROWS)?);
    Ok(())
}
