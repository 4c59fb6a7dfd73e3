// The grammars of a text.
ghost use Rattle.std.specs.Prelude.{◌≡◌, ◌≤◌, ◌<◌, IfOk, IfErr, OnOk, None, IsUtf8, chars as chars_in, length, codes, option_map};
ghost use Rattle.grammar_model.specs.declared.limits.TheConstants.{LONGEST_GRAMMAR};
ghost use Rattle.dsl_faults.specs.Found.{refused_fault};
ghost use Rattle.language_model.specs.Building.{Built};
ghost use Rattle.language_model.specs.Texts.{IsDescription, IsBuilt, IsBuiltOf};
ghost use Rattle.reading_model.specs.Accepted.{IsAccepted};
ghost use Rattle.run_model.specs.Refused.{Accepted};
ghost use Rattle.prepared_grammars.specs.Faults.{IsRefusal};
ghost use Rattle.text_reading.specs.Refusals.{TellsGrammar, IsRefusedAt, place_in, fault_at};
ghost use Rattle.text_reading.specs.Parts.{IsDescriptionOf, IsBadText, IsBadDescription, IsFaultText, IsGrammarText};

use crate::Refusal;
use crate::phrases::{
    description_place, description_text, grammars_text, not_utf8_text, phrase, place_in,
};
use dsl_build::{BuildRefusal, Built, build};
use dsl_reader::{StatementRefusal, parse};
use dsl_statement::Description;
use dsl_tokens::{TokenRefusal, tokens};
use grammar_model::LONGEST_GRAMMAR;
use scanless::{PrepareRefusal, Prepared, prepare};
use slif_base::{Chars, TextRefusal, chars_of};
use std::alloc::{AllocError, Global};

/// What is told of a grammar that is longer than 1,048,576 bytes.
pub fn long_grammar_text(alloc: Global) -> Result<Vec<u8>, AllocError>
    ensures { IfOk result (λ text. text.items ≡ codes "grammar: longer than 1048576 bytes") }
{
    Vec::from_slice(alloc, b"grammar: longer than 1048576 bytes")
}

/// The grammars of a text, whatever its length.
pub fn grammar_of(alloc: Global, bytes: &[u8]) -> Result<Prepared, Refusal>
    ensures read { IfOk result (Accepted bytes.now) }
    ensures refused { IfErr result (TellsGrammar (IsRefusedAt bytes.now)) }
{
    if bytes.len() > LONGEST_GRAMMAR {
        let text = long_grammar_text(alloc)?;
        return Err(Refusal::Grammar { text, place: None });
    }
    read_grammar(alloc, bytes)
}

/// The grammars of a text that is not too long.
pub fn read_grammar(alloc: Global, bytes: &[u8]) -> Result<Prepared, Refusal>
    requires { length bytes.now ≤ LONGEST_GRAMMAR }
    ensures read { IfOk result (Accepted bytes.now) }
    ensures refused { IfErr result (TellsGrammar (IsRefusedAt bytes.now)) }
{
    let chars = match characters(alloc, bytes) {
        Ok(chars) => chars,
        Err(refusal) => return Err(refusal),
    };
    let description = match describe(alloc, &chars) {
        Ok(description) => description,
        Err(refusal) => return Err(refusal),
    };
    match accept(alloc, &chars, &description) {
        Ok(prepared) => Ok(prepared),
        Err(refusal) => Err(refusal),
    }
}

fn characters(alloc: Global, bytes: &[u8]) -> Result<Chars, Refusal>
    requires { length bytes.now ≤ LONGEST_GRAMMAR }
    ensures utf8 { OnOk result (IsUtf8 bytes.now) }
    ensures ok { IfOk result (λ chars. chars ≡ chars_in bytes.now) }
    ensures refused { IfErr result (TellsGrammar (IsRefusedAt bytes.now)) }
{
    match chars_of(alloc, bytes) {
        Ok(chars) => Ok(chars),
        Err(TextRefusal::NotUtf8 { at }) => {
            let text = not_utf8_text(alloc, "grammar:", at)?;
            Err(Refusal::Grammar { text, place: None })
        }
        Err(TextRefusal::NoMemory) => Err(Refusal::NoMemory),
    }
}

/// The description of a text.
fn describe(alloc: Global, chars: &Chars) -> Result<Description, Refusal>
    requires { length chars.now < 4294967295 }
    ensures described { IfOk result (λ d. IsDescriptionOf d chars.now) }
    ensures refused { IfErr result (TellsGrammar (IsBadText chars.now)) }
{
    let tokens = match tokens(alloc, chars) {
        Ok(tokens) => tokens,
        Err(TokenRefusal::BadToken { at }) => {
            let text = phrase(alloc, b"grammar: bad token", "", b"", chars, at)?;
            return Err(Refusal::Grammar {
                text,
                place: Some(place_in(chars, at)),
            });
        }
        Err(TokenRefusal::NoMemory) => return Err(Refusal::NoMemory),
    };
    match parse(alloc, chars, &tokens) {
        Ok(description) => Ok(description),
        Err(StatementRefusal::BadStatement { at }) => {
            let text = phrase(alloc, b"grammar: bad statement", "", b"", chars, at)?;
            Err(Refusal::Grammar {
                text,
                place: Some(place_in(chars, at)),
            })
        }
        Err(StatementRefusal::NoMemory) => Err(Refusal::NoMemory),
    }
}

/// The grammars of a description.
fn accept(alloc: Global, chars: &Chars, description: &Description) -> Result<Prepared, Refusal>
    requires small { length chars.now < 4294967295 }
    requires read { IsDescription description.now }
    ensures built { IfOk result (λ p. IsBuiltOf description.now p) }
    ensures accepted { IfOk result IsAccepted }
    ensures refused { IfErr result (TellsGrammar (IsBadDescription chars.now description.now)) }
{
    match build(alloc, description) {
        Ok(built) => prepare_built(alloc, built),
        Err(refusal) => {
            let told = tell_description(alloc, chars, &refusal);
            drop(refusal);
            Err(told)
        }
    }
}

// The refusal of a description that has a fault.
fn tell_description(alloc: Global, chars: &Chars, refusal: &BuildRefusal) -> Refusal
    requires { length chars.now < 4294967295 }
    ensures { TellsGrammar
        (λ text place. IsFaultText chars.now (refused_fault refusal.now) text ×
        (place ≡
        option_map (λ fault. place_in chars.now (fault_at fault))
        (refused_fault refusal.now)))
        result }
{
    match description_text(alloc, chars, refusal) {
        Ok(text) => Refusal::Grammar {
            text,
            place: description_place(chars, refusal),
        },
        Err(AllocError) => Refusal::NoMemory,
    }
}

// The grammars that were built, where they are accepted.
fn prepare_built(alloc: Global, built: Built) -> Result<Prepared, Refusal>
    requires { IsBuilt built }
    ensures same { IfOk result (λ p. p ≡ built) }
    ensures accepted { OnOk result (IsAccepted built) }
    ensures refused { IfErr result (TellsGrammar (λ text place. IsGrammarText built text ×
        (place ≡ None))) }
{
    match prepare(alloc, built) {
        Ok(prepared) => Ok(prepared),
        Err(refusal) => {
            let told = tell_grammars(alloc, &refusal);
            drop(refusal);
            Err(told)
        }
    }
}

// The refusal of grammars that are not accepted.
fn tell_grammars(alloc: Global, refusal: &PrepareRefusal) -> Refusal
    requires { (b : Built) × IsRefusal b refusal.now }
    ensures { (b : Built) → IsRefusal b refusal.now →
        TellsGrammar (λ text place. IsGrammarText b text × (place ≡ None)) result }
{
    match grammars_text(alloc, refusal) {
        Ok(text) => Refusal::Grammar { text, place: None },
        Err(AllocError) => Refusal::NoMemory,
    }
}
