//! Where readings are ambiguous, worked by hand.
ghost use Rattle.std.specs.Prelude.{◌≡◌};
ghost use Rattle.grammar_model.specs.declared.Ranking.TheVariants.{Rule};

use crate::readings::{Row, Wanted};
use bocage::Forest;
use glades::{Glade, Shape, report_glades};
use grammar_core::Written;
use grammar_model::Ranking;
use row_readings::{HIGH, Input, LOW, Language, PIECES, SUM, are_rows};
use slif_base::Steps;
use std::alloc::{AllocError, Global};
use std::sync::ledger::Ledger;
use std::test::Fail;

/// A rule, and where its parts begin.
pub(crate) type Cut = (u32, &'static [u32]);

/// A symbol, the places between which it stands, and its first two shapes.
pub(crate) type Told = (u32, u32, u32, Cut, Cut);

// S -> B B B, B -> a, B ->
const THREE: Language = Language {
    names: &["S", "B", "a"],
    lines: &[
        (0, &[1, 1, 1], 0, false),
        (1, &[2], 0, false),
        (1, &[], 0, false),
    ],
    lists: &[],
};

// S -> if S | if S else S | x
const DANGLING: Language = Language {
    names: &["S", "if", "else", "x"],
    lines: &[
        (0, &[1, 0], 0, false),
        (0, &[1, 0, 2, 0], 0, false),
        (0, &[3], 0, false),
    ],
    lists: &[],
};

// S -> K | I, K -> word, I -> word
const KEYWORD: Language = Language {
    names: &["S", "K", "I", "word"],
    lines: &[
        (0, &[1], 0, false),
        (0, &[2], 0, false),
        (1, &[3], 0, false),
        (2, &[3], 0, false),
    ],
    lists: &[],
};

// the same, with a higher rank for I
const IDENTIFIER: Language = Language {
    names: &["S", "K", "I", "word"],
    lines: &[
        (0, &[1], 0, false),
        (0, &[2], 1, false),
        (1, &[3], 0, false),
        (2, &[3], 0, false),
    ],
    lists: &[],
};

// L is a list of N with commas, S -> L comma | L
const LAST_COMMA: Language = Language {
    names: &["S", "L", "N", ","],
    lines: &[(0, &[1, 3], 0, false), (0, &[1], 0, false)],
    lists: &[(1, 2, Some(3))],
};

// P is a list of T with a T between each two; T -> x | x x
const OWN_SEPARATOR: Language = Language {
    names: &["P", "T", "x"],
    lines: &[(1, &[2], 0, false), (1, &[2, 2], 0, false)],
    lists: &[(0, 1, Some(1))],
};

// the same, with T -> x x | x x x
const LONG_SEPARATOR: Language = Language {
    names: &["P", "T", "x"],
    lines: &[(1, &[2, 2], 0, false), (1, &[2, 2, 2], 0, false)],
    lists: &[(0, 1, Some(1))],
};

// S is a list of T, T is a list of x
const LISTS: Language = Language {
    names: &["S", "T", "x"],
    lines: &[],
    lists: &[(0, 1, None), (1, 2, None)],
};

// S -> A B, A -> x A | , B -> x B |
const TWO_TAILS: Language = Language {
    names: &["S", "A", "B", "x"],
    lines: &[
        (0, &[1, 2], 0, false),
        (1, &[3, 1], 0, false),
        (1, &[], 0, false),
        (2, &[3, 2], 0, false),
        (2, &[], 0, false),
    ],
    lists: &[],
};

static ROWS: &[Row<'static>] = &[
    (
        SUM,
        Input::Row(&[1, 2, 1, 2, 1]),
        Ranking::Rule,
        Wanted::Glades(&[(0, 0, 5, (0, &[0, 3, 4]), (0, &[0, 1, 2]))]),
    ),
    (
        SUM,
        Input::Row(&[1, 2, 1, 2, 1, 2, 1, 2, 1]),
        Ranking::Rule,
        Wanted::Glades(&[
            (0, 0, 9, (0, &[0, 7, 8]), (0, &[0, 5, 6])),
            (0, 0, 7, (0, &[0, 5, 6]), (0, &[0, 3, 4])),
            (0, 0, 5, (0, &[0, 3, 4]), (0, &[0, 1, 2])),
            (0, 2, 9, (0, &[2, 7, 8]), (0, &[2, 5, 6])),
            (0, 2, 7, (0, &[2, 5, 6]), (0, &[2, 3, 4])),
            (0, 4, 9, (0, &[4, 7, 8]), (0, &[4, 5, 6])),
        ]),
    ),
    (
        SUM,
        Input::Row(&[1, 2, 1]),
        Ranking::Rule,
        Wanted::Glades(&[]),
    ),
    (
        LOW,
        Input::Row(&[2]),
        Ranking::Rule,
        Wanted::Glades(&[(0, 0, 1, (0, &[0, 0]), (0, &[0, 1]))]),
    ),
    (
        HIGH,
        Input::Row(&[2]),
        Ranking::Rule,
        Wanted::Glades(&[(0, 0, 1, (0, &[0, 1]), (0, &[0, 0]))]),
    ),
    (LOW, Input::Row(&[]), Ranking::Rule, Wanted::Glades(&[])),
    (
        THREE,
        Input::Row(&[2]),
        Ranking::Rule,
        Wanted::Glades(&[(0, 0, 1, (0, &[0, 0, 0]), (0, &[0, 0, 1]))]),
    ),
    (
        DANGLING,
        Input::Row(&[1, 1, 3, 2, 3]),
        Ranking::Rule,
        Wanted::Glades(&[(0, 0, 5, (0, &[0, 1]), (1, &[0, 1, 3, 4]))]),
    ),
    (
        KEYWORD,
        Input::Row(&[3]),
        Ranking::Rule,
        Wanted::Glades(&[(0, 0, 1, (0, &[0]), (1, &[0]))]),
    ),
    (
        IDENTIFIER,
        Input::Row(&[3]),
        Ranking::Rule,
        Wanted::Glades(&[(0, 0, 1, (1, &[0]), (0, &[0]))]),
    ),
    (
        LAST_COMMA,
        Input::Row(&[2, 3]),
        Ranking::Rule,
        Wanted::Glades(&[(0, 0, 2, (1, &[0, 1]), (2, &[0]))]),
    ),
    (
        OWN_SEPARATOR,
        Input::Row(&[2, 2, 2]),
        Ranking::Rule,
        Wanted::Glades(&[(0, 0, 3, (0, &[0, 1, 2]), (0, &[0, 2]))]),
    ),
    (
        LONG_SEPARATOR,
        Input::Row(&[2, 2, 2, 2, 2]),
        Ranking::Rule,
        Wanted::Glades(&[(0, 0, 5, (0, &[0, 3]), (0, &[0, 2]))]),
    ),
    (
        LISTS,
        Input::Row(&[2, 2, 2]),
        Ranking::Rule,
        Wanted::Glades(&[(0, 0, 3, (0, &[0, 1, 2]), (0, &[0, 2]))]),
    ),
    (
        PIECES,
        Input::Row(&[2, 2]),
        Ranking::Rule,
        Wanted::Glades(&[(0, 0, 2, (0, &[0, 1]), (0, &[0]))]),
    ),
    (
        TWO_TAILS,
        Input::Row(&[3, 3]),
        Ranking::Rule,
        Wanted::Glades(&[(0, 0, 2, (0, &[0, 1]), (0, &[0, 0]))]),
    ),
];

fn is_cut(shape: &Shape, cut: &Cut) -> bool {
    shape.rule.0 == cut.0 && shape.starts.as_slice() == cut.1
}

fn is_told(glade: &Glade, told: &Told) -> bool {
    let (symbol, from, to, first, second) = told;
    glade.symbol.0 == *symbol
        && glade.level == 0
        && glade.from == *from
        && glade.to == *to
        && is_cut(&glade.first, first)
        && is_cut(&glade.second, second)
}

fn are_told(glades: &[Glade], told: &[Told]) -> bool {
    if glades.len() != told.len() {
        return false;
    }
    for k in 0..glades.len() {
        if !is_told(&glades[k], &told[k]) {
            return false;
        }
    }
    true
}

/// Whether a forest has these glades, in this order.
pub(crate) fn has_glades<L: Ledger>(
    alloc: Global,
    forest: &Forest<'_>,
    w: &Written,
    told: &[Told],
    steps: &mut Steps<L>,
) -> Result<bool, AllocError>
    requires ranking { forest.now.ranking ≡ Rule }
    requires written { forest.now.written ≡ w.now }
{
    let glades = report_glades(alloc, forest, w, steps)?;
    Ok(are_told(&glades, told))
}

#[test]
fn readings_have_the_glades_of_the_rows(rt: HostRuntime) -> Result<(), Fail> {
    assert!(rt; are_rows(rt.alloc(), ROWS)?);
    Ok(())
}
