//! Whether a grammar and an input come to what is wanted of them. Each function owns one thing, hands it on by reference, and lets it go
//! by a call, which is proved once for each type and not part by part.
ghost use Rattle.std.specs.Prelude.{◌≡◌, ℕ, pos, IfOk, IsSome};
ghost use Rattle.library_tests.specs.Differences.{IsCurrent, the_tokens, left_first, right_first};

use crate::differences::Differences;
use slif_parser::{
    Derivations, FoldError, Forest, Grammar, NoMemory, ParseError, Place, Ranking, Reading,
};
use std::alloc::Global;
use std::test::Fail;

/// A grammar, an input, and what is wanted of them: the values of all derivations, or else the message of a refusal, its place, and the one
/// lexeme that could come next.
#[derive(Clone, Copy)]
pub(crate) struct Case {
    pub grammar: &'static [u8],
    pub input: &'static [u8],
    pub values: &'static [i64],
    pub message: &'static str,
    pub place: Option<Place>,
    pub next: &'static str,
}

/// Sums of two numbers; nothing is wanted of them yet.
pub(crate) const SUM: Case = Case {
    grammar: b"lexeme default = latm => 1\nSum ::= Number '+' Number\nNumber ~ [0-9]+\n",
    input: b"",
    values: &[],
    message: "",
    place: None,
    next: "Number",
};

// Whether an error shows the message, and tells the place.
fn is_told(alloc: Global, error: &ParseError, case: &Case) -> Result<bool, Fail> {
    let place = match error {
        ParseError::Grammar { place, .. } | ParseError::Input { place, .. } => *place,
        ParseError::NoMemory => None,
    };
    let shown = format!(in alloc; "{error}")?;
    Ok(shown.as_str() == case.message && place == case.place)
}

// Whether a lexeme of that name, and no other, could come next.
fn is_next(grammar: &Grammar, error: &ParseError, name: &str) -> bool {
    let ParseError::Input { expected, .. } = error else {
        return false;
    };
    match expected.as_slice() {
        [symbol] => grammar.name(*symbol) == Some(name),
        _ => false,
    }
}

fn is_refused(
    alloc: Global,
    grammar: &Grammar,
    error: &ParseError,
    case: &Case,
) -> Result<bool, Fail> {
    Ok(is_next(grammar, error, case.next) && is_told(alloc, error, case)?)
}

// The value of the current derivation. That of `9-3-2` is 4 where the left difference comes first, and 8 where the right one does.
fn current_value(alloc: Global, derivations: &Derivations<'_>) -> Result<i64, FoldError<NoMemory>>
    requires { IsSome derivations.now.iteration.current }
    ensures left { IfOk result (λ v. (number minus : ℕ) →
        IsCurrent derivations.now the_tokens (left_first number minus) → v ≡ pos 4) }
    ensures right { IfOk result (λ v. (number minus : ℕ) →
        IsCurrent derivations.now the_tokens (right_first number minus) → v ≡ pos 8) }
{
    derivations.fold(alloc, &mut Differences)
}

// The value of the next derivation, if there is one.
fn next_value(alloc: Global, derivations: &mut Derivations<'_>) -> Result<Option<i64>, Fail> {
    if !derivations.next()? {
        return Ok(None);
    }
    Ok(Some(current_value(alloc, derivations)?))
}

fn are_values(
    alloc: Global,
    derivations: &mut Derivations<'_>,
    values: &[i64],
) -> Result<bool, Fail> {
    for value in values {
        if next_value(alloc, derivations)? != Some(*value) {
            return Ok(false);
        }
    }
    Ok(next_value(alloc, derivations)?.is_none())
}

fn has_values(alloc: Global, forest: &Forest<'_>, values: &[i64]) -> Result<bool, Fail> {
    let mut derivations = forest.derivations(alloc)?;
    are_values(alloc, &mut derivations, values)
}

fn is_derived(
    alloc: Global,
    grammar: &Grammar,
    reading: &Reading<'_>,
    case: &Case,
) -> Result<bool, Fail> {
    match reading.forest(alloc, Ranking::Rule) {
        Ok(forest) => has_values(alloc, &forest, case.values),
        Err(error) => is_refused(alloc, grammar, &error, case),
    }
}

fn is_read(alloc: Global, grammar: &Grammar, case: &Case) -> Result<bool, Fail> {
    match grammar.read(alloc, case.input) {
        Ok(reading) => {
            let derived = is_derived(alloc, grammar, &reading, case);
            drop(reading);
            derived
        }
        Err(error) => is_refused(alloc, grammar, &error, case),
    }
}

/// Whether it comes to what is wanted.
pub(crate) fn is_so(alloc: Global, case: &Case) -> Result<bool, Fail> {
    match Grammar::from_text(alloc, case.grammar) {
        Ok(grammar) => {
            let read = is_read(alloc, &grammar, case);
            drop(grammar);
            read
        }
        Err(error) => is_told(alloc, &error, case),
    }
}
