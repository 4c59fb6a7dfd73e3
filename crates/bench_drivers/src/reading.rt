//! The tokens of a run, and reading them.
ghost use Rattle.std.specs.Prelude.{◌≡◌};

use crate::grammar::{Group, Language};
use anyhow::bail;
use earley_sets::Recce;
use grammar_core::{Assoc, SymbolId};
use grammar_model::LAST_PLACE;
use slif_base::Steps;
use std::sync::ledger::Ledger;

// S -> S a | a
const LEFT: Language = Language {
    names: &["S", "a"],
    lines: &[(0, &[0, 1]), (0, &[1])],
    groups: &[],
};

// E -> E '+' N | N
const SUM: Language = Language {
    names: &["E", "N", "+"],
    lines: &[(0, &[0, 2, 1]), (0, &[1])],
    groups: &[],
};

// E -> E '+' E | N
const TWICE: Language = Language {
    names: &["E", "N", "+"],
    lines: &[(0, &[0, 2, 0]), (0, &[1])],
    groups: &[],
};

// S -> a S | a
const RIGHT: Language = Language {
    names: &["S", "a"],
    lines: &[(0, &[1, 0]), (0, &[1])],
    groups: &[],
};

// S -> a
const ONE: Language = Language {
    names: &["S", "a"],
    lines: &[(0, &[1])],
    groups: &[],
};

// B -> ( B ) | x
const BRACKETS: Language = Language {
    names: &["B", "(", ")", "x"],
    lines: &[(0, &[1, 0, 2]), (0, &[3])],
    groups: &[],
};

// Values, objects, members and elements of JSON.
const JSON: Language = Language {
    names: &[
        "value", "object", "members", "member", "array", "elements", "string", "number", "{", "}",
        "[", "]", ",", ":",
    ],
    lines: &[
        (0, &[6]),
        (0, &[7]),
        (0, &[1]),
        (0, &[4]),
        (1, &[8, 9]),
        (1, &[8, 2, 9]),
        (2, &[2, 12, 3]),
        (2, &[3]),
        (3, &[6, 13, 0]),
        (4, &[10, 11]),
        (4, &[10, 5, 11]),
        (5, &[5, 12, 0]),
        (5, &[0]),
    ],
    groups: &[],
};

// { "" : [ 0 , "" ] , "" : 0 } ,
const OBJECT: &[u32] = &[8, 6, 13, 10, 7, 12, 6, 11, 12, 6, 13, 7, 9, 12];

// The tightest group, whose brackets hold the loosest.
const HELD: Group = Group {
    level: 4,
    groups: 5,
    assoc: Assoc::Group,
};

const POWER: Group = Group {
    level: 3,
    groups: 5,
    assoc: Assoc::Right,
};

const SIGN: Group = Group {
    level: 2,
    groups: 5,
    assoc: Assoc::Left,
};

const FACTOR: Group = Group {
    level: 1,
    groups: 5,
    assoc: Assoc::Left,
};

const TERM: Group = Group {
    level: 0,
    groups: 5,
    assoc: Assoc::Left,
};

// The operator table of `examples/operators.slif`.
const OPERATORS: Language = Language {
    names: &["E", "n", "(", ")", "^", "-", "*", "/", "+"],
    lines: &[
        (0, &[1]),
        (0, &[2, 0, 3]),
        (0, &[0, 4, 0]),
        (0, &[5, 0]),
        (0, &[0, 6, 0]),
        (0, &[0, 7, 0]),
        (0, &[0, 8, 0]),
        (0, &[0, 5, 0]),
    ],
    groups: &[HELD, HELD, POWER, SIGN, FACTOR, FACTOR, TERM, TERM],
};

// n + n * - n ^ n - ( n / n ) +
const TERMS: &[u32] = &[1, 8, 1, 6, 5, 1, 4, 1, 5, 2, 1, 7, 1, 3, 8];

/// What is read.
#[derive(Clone, Copy)]
pub(crate) enum Word {
    Left,
    Right,
    Sum,
    Twice,
    Json,
    Deep,
    Brackets,
    Operators,
    Long,
}

// A token that begins at a place, and how many places long it is.
#[derive(Clone, Copy)]
struct Begun {
    token: u32,
    length: u32,
}

impl Word {
    /// The word with this name.
    pub(crate) fn named(name: &str) -> Result<Word, anyhow::Error> {
        match name {
            "left" => Ok(Word::Left),
            "right" => Ok(Word::Right),
            "sum" => Ok(Word::Sum),
            "twice" => Ok(Word::Twice),
            "json" => Ok(Word::Json),
            "deep" => Ok(Word::Deep),
            "brackets" => Ok(Word::Brackets),
            "operators" => Ok(Word::Operators),
            "long" => Ok(Word::Long),
            _ => {
                bail!(
                    "left, right, sum, twice, json, deep, brackets, operators, long or values is wanted"
                )
            }
        }
    }

    /// The grammar that is read for the word.
    pub(crate) fn language(self) -> Language {
        match self {
            Word::Left => LEFT,
            Word::Right => RIGHT,
            Word::Sum => SUM,
            Word::Twice => TWICE,
            Word::Json | Word::Deep => JSON,
            Word::Brackets => BRACKETS,
            Word::Operators => OPERATORS,
            Word::Long => ONE,
        }
    }

    /// How many places are gone over, for a count of tokens, of operands, of objects, of arrays, of brackets, of rounds of operators or of places.
    pub(crate) fn places(self, count: u32) -> u32 {
        match self {
            Word::Left | Word::Right | Word::Sum | Word::Long => count,
            Word::Twice => count.saturating_mul(2).saturating_sub(1),
            Word::Json => count.saturating_mul(14).saturating_add(1),
            Word::Deep => count.saturating_mul(2),
            Word::Operators => count.saturating_mul(15).saturating_add(1),
            Word::Brackets => count.saturating_mul(2).saturating_add(1),
        }
    }

    // The token at a place, of so many.
    fn token(self, k: u32, count: u32) -> u32 {
        match self {
            Word::Left | Word::Right | Word::Long => 1,
            Word::Sum | Word::Twice => 1 + k % 2,
            Word::Json if k == 0 => 10,
            Word::Json if k == count.saturating_sub(1) => 11,
            Word::Json => OBJECT[((k - 1) % 14) as usize],
            Word::Deep if k < count / 2 => 10,
            Word::Deep => 11,
            Word::Brackets if k < count / 2 => 1,
            Word::Brackets if k == count / 2 => 3,
            Word::Brackets => 2,
            Word::Operators => TERMS[(k % 15) as usize],
        }
    }

    // What begins at a place, of so many: a token of one place, or one of all places at the first of them.
    fn begun(self, k: u32, count: u32) -> Option<Begun> {
        let token = self.token(k, count);
        match self {
            Word::Long if k == 0 => Some(Begun {
                token,
                length: count,
            }),
            Word::Long => None,
            _ => Some(Begun { token, length: 1 }),
        }
    }
}

// Takes what begins at the place, and goes on to the next.
fn read<L: Ledger>(
    recce: &mut Recce<'_>,
    begun: Option<Begun>,
    steps: &mut Steps<L>,
) -> Result<(), anyhow::Error>
    ensures { recce.new.flat ≡ recce.old.flat }
{
    if recce.place() >= LAST_PLACE {
        bail!("too many tokens");
    }
    if let Some(begun) = begun {
        recce.alternative(SymbolId(begun.token), begun.length)?;
    }
    recce.complete_earleme(steps)?;
    Ok(())
}

/// Goes over so many places.
pub(crate) fn read_all<L: Ledger>(
    recce: &mut Recce<'_>,
    word: Word,
    count: u32,
    steps: &mut Steps<L>,
) -> Result<(), anyhow::Error>
    ensures { recce.new.flat ≡ recce.old.flat }
{
    for k in 0..count {
        read(recce, word.begun(k, count), steps)?;
    }
    Ok(())
}

/// How many items all sets have.
pub(crate) fn item_count(recce: &Recce<'_>) -> usize {
    let mut count: usize = 0;
    for j in 0..=recce.place() {
        count = count.saturating_add(recce.kept(j).len());
    }
    count
}
