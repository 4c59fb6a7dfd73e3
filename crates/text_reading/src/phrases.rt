// What is told of a grammar that is refused.
ghost use Rattle.std.specs.Prelude.{◌≡◌, ◌<◌, ◌++◌, length, codes, decimal, Some, IfOk, IfSome, option_map};
ghost use Rattle.grammar_check.specs.Message.{IsOf, refusal_text};
ghost use Rattle.dsl_faults.specs.Found.{refused_fault};
ghost use Rattle.language_model.specs.Building.{Built};
ghost use Rattle.reading_model.specs.Accepted.{TooManyRules as TooMany};
ghost use Rattle.run_model.specs.Refused.{at_place, grammar_text};
ghost use Rattle.prepared_grammars.specs.Faults.{IsRefusal};
ghost use Rattle.text_reading.specs.Refusals.{place_in, fault_at};
ghost use Rattle.text_reading.specs.Parts.{IsFaultText, IsGrammarText};

use crate::Place;
use dsl_build::BuildRefusal;
use grammar_check::{GrammarRefusal, append_refusal};
use grammar_core::Written;
use scanless::PrepareRefusal;
use slif_base::Chars;
use std::alloc::{AllocError, Global};

/// What is told of bytes that are not UTF-8 from a place on. The words in front say of what.
pub fn not_utf8_text(alloc: Global, of: &str, at: usize) -> Result<Vec<u8>, AllocError>
    ensures { IfOk result (λ text. text.items ≡
        of.now ++ (codes " not UTF-8 at byte " ++ decimal at)) }
{
    let text = format!(in alloc; "{of} not UTF-8 at byte {at}")?;
    Ok(text.into_bytes())
}

/// A place, or the end for one past it.
pub fn place_in(chars: &Chars, at: usize) -> Place
    requires { length chars.now < 4294967295 }
    ensures { result ≡ place_in chars.now at }
{
    let (line, column) = chars.line_column(at.min(chars.len()));
    Place { line, column }
}

/// A phrase, a name, another phrase and a place.
pub fn phrase(
    alloc: Global,
    before: &[u8],
    name: &str,
    after: &[u8],
    chars: &Chars,
    at: usize,
) -> Result<Vec<u8>, AllocError>
    requires { length chars.now < 4294967295 }
    ensures { IfOk result (λ text. text.items ≡
        before.now ++ (name.now ++ (after.now ++ at_place chars.now at))) }
{
    let Place { line, column } = place_in(chars, at);
    let place = format!(in alloc; " at line {line} column {column}")?;
    let mut text = Vec::from_slice(alloc, before)?;
    text.extend_from_slice(name.as_bytes())?;
    text.extend_from_slice(after)?;
    text.extend_from_slice(place.as_bytes())?;
    Ok(text)
}

/// A fault of the description.
pub fn description_text(
    alloc: Global,
    chars: &Chars,
    refusal: &BuildRefusal,
) -> Result<Vec<u8>, AllocError>
    requires { length chars.now < 4294967295 }
    ensures { IfOk result (λ text. IsFaultText chars.now (refused_fault refusal.now) text.items) }
{
    match refusal {
        BuildRefusal::BadAdverb { at, name } => {
            phrase(alloc, b"grammar: bad adverb ", name, b"", chars, *at)
        }
        BuildRefusal::RepeatedAdverb { at, name } => {
            phrase(alloc, b"grammar: repeated ", name, b"", chars, *at)
        }
        BuildRefusal::LexemeNotDefined { at, name } => {
            phrase(alloc, b"grammar: no rule for ", name, b"", chars, *at)
        }
        BuildRefusal::InBoth { at, name } => {
            let after = b" has rules of both levels";
            phrase(alloc, b"grammar: ", name, after, chars, *at)
        }
        BuildRefusal::NotALexeme { at, name } => {
            phrase(alloc, b"grammar: ", name, b" is not a lexeme", chars, *at)
        }
        BuildRefusal::BadClass { at, name } => {
            phrase(alloc, b"grammar: bad class ", name, b"", chars, *at)
        }
        BuildRefusal::TwoStarts { at, .. } => {
            phrase(alloc, b"grammar: second start", "", b"", chars, *at)
        }
        BuildRefusal::NumberRange { at, .. } => {
            phrase(alloc, b"grammar: number out of range", "", b"", chars, *at)
        }
        BuildRefusal::TooLong { at, .. } => {
            phrase(alloc, b"grammar: too long", "", b"", chars, *at)
        }
        BuildRefusal::NoMemory => Err(AllocError),
    }
}

/// Where a fault of the description lies.
pub fn description_place(chars: &Chars, refusal: &BuildRefusal) -> Option<Place>
    requires { length chars.now < 4294967295 }
    ensures { result ≡
        option_map (λ fault. place_in chars.now (fault_at fault)) (refused_fault refusal.now) }
{
    match refusal {
        BuildRefusal::BadAdverb { at, .. }
        | BuildRefusal::RepeatedAdverb { at, .. }
        | BuildRefusal::LexemeNotDefined { at, .. }
        | BuildRefusal::InBoth { at, .. }
        | BuildRefusal::NotALexeme { at, .. }
        | BuildRefusal::BadClass { at, .. }
        | BuildRefusal::TwoStarts { at, .. }
        | BuildRefusal::NumberRange { at, .. }
        | BuildRefusal::TooLong { at, .. } => Some(place_in(chars, *at)),
        BuildRefusal::NoMemory => None,
    }
}

fn check_text(
    alloc: Global,
    before: &[u8],
    w: &Written,
    refusal: &GrammarRefusal,
) -> Result<Vec<u8>, AllocError>
    requires { IsOf w.now refusal.now }
    ensures { IfOk result (λ text. text.items ≡ before.now ++ refusal_text w.now refusal.now) }
{
    let mut text = Vec::from_slice(alloc, before)?;
    append_refusal(w, refusal, &mut text)?;
    Ok(text)
}

fn rules_text(alloc: Global, lexical: bool) -> Result<Vec<u8>, AllocError>
    ensures { IfOk result (λ text. (b : Built) → text.items ≡ grammar_text b (TooMany lexical)) }
{
    if lexical {
        Vec::from_slice(alloc, b"lexical grammar: more than 65536 flat rules")
    } else {
        Vec::from_slice(alloc, b"grammar: more than 65536 flat rules")
    }
}

/// Grammars that are not accepted.
pub fn grammars_text(alloc: Global, refusal: &PrepareRefusal) -> Result<Vec<u8>, AllocError>
    requires { (b : Built) × IsRefusal b refusal.now }
    ensures { IfOk result (λ text. (b : Built) → IsRefusal b refusal.now →
        IsGrammarText b text.items) }
{
    match refusal {
        PrepareRefusal::Grammar { w, refusal } => check_text(alloc, b"grammar: ", w, refusal),
        PrepareRefusal::Lexical { w, refusal } => {
            check_text(alloc, b"lexical grammar: ", w, refusal)
        }
        PrepareRefusal::TooManyRules { lexical } => Ok(rules_text(alloc, *lexical)?),
        PrepareRefusal::NoMemory => Err(AllocError),
    }
}
