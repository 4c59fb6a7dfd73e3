//! Chosen derivations, under a ranking that keeps only the best ranks: their trees, and the numbers of their forests, all worked by
//! hand.
use crate::forests::RANKED;
use crate::readings::{Row, Wanted};
use grammar_model::Ranking;
use row_readings::{Input, Language, PIECES, are_rows};
use std::test::Fail;

// S -> T T, T -> x with a higher rank | x x
const SPLITS: Language = Language {
    names: &["S", "T", "x"],
    lines: &[
        (0, &[1, 1], 0, false),
        (1, &[2], 1, false),
        (1, &[2, 2], 0, false),
    ],
    lists: &[],
};

// S -> A A, A -> x | B with a higher rank, B -> x | C with a higher rank, C -> x
const DEEP: Language = Language {
    names: &["S", "A", "B", "C", "x"],
    lines: &[
        (0, &[1, 1], 0, false),
        (1, &[4], 0, false),
        (1, &[2], 2, false),
        (2, &[4], 0, false),
        (2, &[3], 7, false),
        (3, &[4], 0, false),
    ],
    lists: &[],
};

static ROWS: &[Row<'static>] = &[
    (
        RANKED,
        Input::Row(&[3]),
        Ranking::High,
        Wanted::Trees(&["1(3(x0))"]),
    ),
    // The top, Q as a start, and the token. Five items in the first set, and three in the other; both ways to the top are hidden.
    (
        RANKED,
        Input::Row(&[3]),
        Ranking::High,
        Wanted::Numbers([1, 8, 3, 2]),
    ),
    (
        RANKED,
        Input::Row(&[3]),
        Ranking::Rule,
        Wanted::Numbers([1, 8, 5, 2]),
    ),
    // Each span of T has one rule, so that no rank decides between the two splits.
    (
        SPLITS,
        Input::Row(&[2, 2, 2]),
        Ranking::High,
        Wanted::Trees(&["0(2(x0 x1) 1(x2))", "0(1(x0) 2(x1 x2))"]),
    ),
    // Each of the two A has three trees. The whole: top, S with two parts and with one, and three nodes for each A.
    (DEEP, Input::Row(&[4, 4]), Ranking::Rule, Wanted::Count(9)),
    (
        DEEP,
        Input::Row(&[4, 4]),
        Ranking::High,
        Wanted::Forest(9, 9, 1, &[(0, &[1])]),
    ),
    // The rules of a list have one rank.
    (
        PIECES,
        Input::Row(&[2, 2, 2]),
        Ranking::High,
        Wanted::Count(3),
    ),
];

#[test]
fn chosen_derivations_have_the_best_ranks(rt: HostRuntime) -> Result<(), Fail> {
    assert!(rt; are_rows(rt.alloc(), ROWS)?);
    Ok(())
}
