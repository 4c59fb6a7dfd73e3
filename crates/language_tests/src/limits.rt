//! A lexer that keeps hardly any states finds what one with no such limit finds, on the texts of the examples.
ghost use Rattle.std.specs.Prelude.{◌≡◌, ◌<◌, ℕ, length, Contains, IsTrue};

use crate::examples::EXAMPLES;
use crate::texts::built;
use lexer::{LexAnswer, Lexer, Lexical};
use scanless::{Prepared, prepare};
use slif_base::{Chars, chars_of};
use std::alloc::{AllocError, Global};
use std::test::Fail;

// How many states the one lexer keeps.
const LIMIT: usize = 3;

// Whether each is the place of a start.
fn are_starts(candidates: &[u32], starts: usize) -> bool
    ensures { IsTrue result → (k : ℕ) → Contains candidates.now k → k < starts }
{
    for candidate in candidates {
        if *candidate as usize >= starts {
            return false;
        }
    }
    true
}

fn are_equal(answer: &Option<LexAnswer>, other: &Option<LexAnswer>) -> bool {
    let Some(a) = answer else {
        return other.is_none();
    };
    let Some(b) = other else {
        return false;
    };
    a.length == b.length && a.matched.as_slice() == b.matched.as_slice()
}

// Whether both find the same of some starts at a place.
fn agree_on(
    alloc: Global,
    low: &mut Lexer<'_>,
    high: &mut Lexer<'_>,
    starts: usize,
    chars: &Chars,
    at: usize,
    candidates: &[u32],
) -> Result<bool, AllocError>
    requires low { starts ≡ length low.old.flat.tops }
    requires high { starts ≡ length high.old.flat.tops }
    ensures low { low.new ≡ low.old }
    ensures high { high.new ≡ high.old }
{
    if !are_starts(candidates, starts) || at > chars.len() || chars.len() > 1000 {
        return Ok(false);
    }
    let by_low = low.longest(alloc, chars, at, candidates)?;
    let by_high = high.longest(alloc, chars, at, candidates)?;
    Ok(are_equal(&by_low, &by_high))
}

// Whether both find the same at a place, of all starts and of each alone.
fn agree_at(
    alloc: Global,
    low: &mut Lexer<'_>,
    high: &mut Lexer<'_>,
    starts: usize,
    chars: &Chars,
    at: usize,
    all: &[u32],
) -> Result<bool, AllocError>
    requires low { starts ≡ length low.old.flat.tops }
    requires high { starts ≡ length high.old.flat.tops }
    ensures low { low.new ≡ low.old }
    ensures high { high.new ≡ high.old }
{
    for start in all {
        if !agree_on(alloc, low, high, starts, chars, at, &[*start])? {
            return Ok(false);
        }
    }
    agree_on(alloc, low, high, starts, chars, at, all)
}

// Whether both find the same at each place.
fn agree(
    alloc: Global,
    low: &mut Lexer<'_>,
    high: &mut Lexer<'_>,
    starts: usize,
    chars: &Chars,
    all: &[u32],
) -> Result<bool, AllocError>
    requires low { starts ≡ length low.old.flat.tops }
    requires high { starts ≡ length high.old.flat.tops }
{
    for at in 0..chars.len() {
        if !agree_at(alloc, low, high, starts, chars, at, all)? {
            return Ok(false);
        }
    }
    Ok(true)
}

fn all_starts(alloc: Global, p: &Prepared) -> Result<Vec<u32>, AllocError> {
    let mut all = Vec::new(alloc);
    for row in p.lexemes() {
        all.push(row.start)?;
    }
    all.extend_from_slice(p.discards())?;
    Ok(all)
}

// Whether a lexer agrees on a text with one that has no such limit.
fn agrees(
    alloc: Global,
    low: &mut Lexer<'_>,
    l0: Lexical<'_>,
    chars: &Chars,
    all: &[u32],
) -> Result<bool, AllocError>
    requires { low.old ≡ l0 }
{
    let flat = l0.flat;
    let mut high = Lexer::new(alloc, l0)?;
    let told = agree(alloc, low, &mut high, flat.start_count(), chars, all);
    drop(high);
    told
}

// Whether the lexers of a grammar agree on a text.
fn lexers_agree(alloc: Global, p: &Prepared, chars: &Chars) -> Result<bool, AllocError> {
    let Some(flat) = p.lexical() else {
        return Ok(false);
    };
    let all = all_starts(alloc, p)?;
    let sets = p.sets();
    let mut low = Lexer::with_limit(alloc, Lexical { flat, sets }, LIMIT)?;
    let told = agrees(alloc, &mut low, Lexical { flat, sets }, chars, &all);
    drop(low);
    told
}

// The grammar of a text, which is accepted.
fn accepted(alloc: Global, grammar: &[u8]) -> Result<Prepared, Fail> {
    match prepare(alloc, built(alloc, grammar)?) {
        Ok(p) => Ok(p),
        Err(refusal) => {
            drop(refusal);
            Err(Fail::new("the grammar is refused"))
        }
    }
}

fn agree_on_input(alloc: Global, p: &Prepared, input: &[u8]) -> Result<bool, Fail> {
    let chars = chars_of(alloc, input)?;
    let told = lexers_agree(alloc, p, &chars);
    drop(chars);
    Ok(told?)
}

// Whether they agree on the input of an example.
fn is_so(alloc: Global, grammar: &[u8], input: &[u8]) -> Result<bool, Fail> {
    let p = accepted(alloc, grammar)?;
    let told = agree_on_input(alloc, &p, input);
    drop(p);
    told
}

#[test]
fn limits_of_states_change_no_match(rt: HostRuntime) -> Result<(), Fail> {
    for (grammar, input) in &EXAMPLES {
        assert!(rt; is_so(rt.alloc(), grammar, input)?);
    }
    Ok(())
}
