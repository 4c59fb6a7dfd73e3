//! The longest matches of a small lexical grammar, worked out by hand.
ghost use Rattle.std.specs.Prelude.{◌≡◌, ◌<◌, ℕ, length, Contains, IsTrue};

use crate::grammars::{Language, flat_of, written_of};
use anyhow::bail;
use char_class::{CharSet, ClassRefusal, read_class};
use grammar_core::{CoreRefusal, Flat, SymbolId, Written};
use lexer::{LexAnswer, Lexer, Lexical};
use slif_base::{Chars, TextRefusal, chars_of};
use std::alloc::{AllocError, Global};
use std::test::Fail;

// Numbers, words, spaces, of which there may be none, and names in Greek: number -> digit | number digit, and so on.
const LEXICAL: Language = Language {
    names: &[
        "number", "word", "spaces", "greek", "digit", "letter", "space", "alpha",
    ],
    lines: &[
        (0, &[4]),
        (0, &[0, 4]),
        (1, &[5]),
        (1, &[1, 5]),
        (2, &[]),
        (2, &[2, 6]),
        (3, &[7]),
        (3, &[3, 7]),
    ],
};

const STARTS: u32 = 4;

// A character can be of several sets.
const SETS: &[(u32, &str)] = &[(4, "[0-9]"), (5, "[0-9a-z]"), (6, "[ ]"), (7, "[^0-9a-z ]")];

fn grammar(alloc: Global) -> Result<Written, CoreRefusal> {
    let mut w = written_of(alloc, &LEXICAL)?;
    for start in 1..STARTS {
        w.start_add(SymbolId(start))?;
    }
    Ok(w)
}

fn put_set(
    alloc: Global,
    terminal: u32,
    class: &str,
    sets: &mut Vec<(SymbolId, CharSet)>,
) -> Result<(), ClassRefusal> {
    let set = read_class(alloc, class)?;
    match sets.push((SymbolId(terminal), set)) {
        Ok(()) => Ok(()),
        Err(_) => Err(ClassRefusal::NoMemory),
    }
}

fn sets(alloc: Global) -> Result<Vec<(SymbolId, CharSet)>, ClassRefusal> {
    let mut sets = Vec::new(alloc);
    for (terminal, class) in SETS {
        put_set(alloc, *terminal, class, &mut sets)?;
    }
    Ok(sets)
}

// Whether each is the place of a start.
fn are_starts(candidates: &[u32], starts: usize) -> bool
    ensures { IsTrue result → (k : ℕ) → Contains candidates.now k → k < starts }
{
    for candidate in candidates {
        if *candidate as usize >= starts {
            return false;
        }
    }
    true
}

// A text, a place, candidates, and what is found: the length of the longest match and the candidates that have it, or nothing.
type Case = (&'static str, usize, &'static [u32], &'static [u32]);

static CASES: &[Case] = &[
    ("12ab 7", 0, &[0, 1, 2], &[4, 1]),
    ("12ab 7", 0, &[0, 2], &[2, 0]),
    ("12ab 7", 5, &[0, 1, 2, 3], &[1, 0, 1]),
    ("12 ab", 0, &[1, 0], &[2, 1, 0]),
    ("  x", 0, &[2], &[2, 2]),
    ("x  ", 0, &[2], &[]),
    ("x  ", 0, &[2, 1], &[1, 1]),
    ("", 0, &[0, 1, 2, 3], &[]),
    ("ab", 2, &[0, 1, 2, 3], &[]),
    ("12", 0, &[], &[]),
    ("αβ1", 0, &[0, 1, 2], &[]),
    ("αβ1", 0, &[0, 1, 2, 3], &[2, 3]),
    ("1!β 2", 1, &[1, 3], &[2, 3]),
];

fn is_answer(answer: &Option<LexAnswer>, expected: &[u32]) -> bool {
    match (answer, expected.split_first()) {
        (None, None) => true,
        (Some(answer), Some((length, matched))) => {
            answer.length == *length && answer.matched.as_slice() == matched
        }
        _ => false,
    }
}

// Whether a lexer finds that at a place of a text.
fn finds_at(
    alloc: Global,
    lexer: &mut Lexer<'_>,
    starts: usize,
    chars: &Chars,
    at: usize,
    candidates: &[u32],
    expected: &[u32],
) -> Result<bool, AllocError>
    requires { starts ≡ length lexer.old.flat.tops }
    ensures { lexer.new ≡ lexer.old }
{
    if !are_starts(candidates, starts) || at > chars.len() || chars.len() > 100 {
        return Ok(false);
    }
    let answer = lexer.longest(alloc, chars, at, candidates)?;
    Ok(is_answer(&answer, expected))
}

// Whether a lexer finds what the case tells.
fn is_found(
    alloc: Global,
    lexer: &mut Lexer<'_>,
    starts: usize,
    case: &Case,
) -> Result<bool, TextRefusal>
    requires { starts ≡ length lexer.old.flat.tops }
    ensures { lexer.new ≡ lexer.old }
{
    let (text, at, candidates, expected) = case;
    let chars = chars_of(alloc, text.as_bytes())?;
    let found = finds_at(alloc, lexer, starts, &chars, *at, candidates, expected);
    drop(chars);
    Ok(found?)
}

// Whether one lexer finds all that.
fn are_found(
    alloc: Global,
    lexer: &mut Lexer<'_>,
    starts: usize,
    cases: &[Case],
) -> Result<bool, anyhow::Error>
    requires { starts ≡ length lexer.old.flat.tops }
{
    for case in cases {
        if !is_found(alloc, lexer, starts, case)? {
            return Ok(false);
        }
    }
    Ok(true)
}

fn lexes(
    alloc: Global,
    flat: &Flat,
    sets: &[(SymbolId, CharSet)],
    cases: &[Case],
) -> Result<bool, anyhow::Error> {
    let mut lexer = Lexer::new(alloc, Lexical { flat, sets })?;
    let found = are_found(alloc, &mut lexer, flat.start_count(), cases);
    drop(lexer);
    found
}

fn finds_by(alloc: Global, flat: &Flat, cases: &[Case]) -> Result<bool, anyhow::Error> {
    let Ok(sets) = sets(alloc) else {
        bail!("a class is refused");
    };
    let found = lexes(alloc, flat, &sets, cases);
    drop(sets);
    found
}

fn finds(alloc: Global, w: &Written, cases: &[Case]) -> Result<bool, anyhow::Error> {
    let flat = flat_of(alloc, w)?;
    let found = finds_by(alloc, &flat, cases);
    drop(flat);
    found
}

#[test]
fn longest_matches(rt: HostRuntime) -> Result<(), Fail> {
    let w = grammar(rt.alloc())?;
    assert!(rt; finds(rt.alloc(), &w, CASES)?);
    Ok(())
}
