//! An input that is read to its end.
ghost use Rattle.std.specs.Prelude.{◌≡◌, ◌<◌, [], IfOk, IfErr, OnOk, IsUtf8, chars as chars_in};
ghost use Rattle.text_reading.specs.Refusals.{IsInputRefusedAt, IsNoDerivation, TellsInput as TellsRefusal, place_in};
ghost use Rattle.text_reading.specs.Parts.{IsBrokenText};
ghost use Rattle.slif_parser.specs.Errors.{TellsInput};
ghost use Rattle.slif_parser.specs.Readings.{IsReadAs, IsForestAs, AreExpectedNext};
ghost use Rattle.slif_parser.specs.Views.{IsHeld};

use crate::error::error_of;
use crate::forest::forest_with;
use crate::{Forest, NoMemory, ParseError, Ranking, SymbolId};
use bumpalo::Bump;
use grammar_model::LONGEST_INPUT;
use scanless::{Prepared, expected_lexemes};
use slif_base::{Chars, Steps};
use std::alloc::Global;
use std::marker::{Brand, Model};
use std::sync::ledger::{Blank, Ledger};
use text_reading::{Place, Refusal, input_chars, input_too_long, read_text};

/// An input that is read to its end. It is seen as the grammar, the lexemes that were given for it, the characters, and the spans of the
/// tokens.
pub struct Reading<'g> {
    pub(crate) prepared: &'g Prepared,
    pub(crate) lexemes: Vec<SymbolId>,
    pub(crate) chars: Chars,
    pub(crate) tokens: scanless::Reading<'g>,
    pub(crate) arena: Bump,
}

// Written out, so that whoever lets it go does so by one call.
impl<'g> Drop for Reading<'g> {
    fn drop(self) {
        let Reading {
            prepared: _,
            lexemes: _,
            chars: _,
            tokens: _,
            arena: _,
        } = self;
    }
}

impl<'g> Model for Reading<'g> {
    ghost use Rattle.slif_parser.specs.Views.{Read, IsHeld};

    ghost Value = { Read };

    ghost view = { λ r. record {
      grammar = r.prepared.now;
      lexemes = r.lexemes.items;
      characters = r.chars;
      spans = r.tokens.spans.items;
    } };

    ghost invariant = { λ r. IsHeld r.prepared.now r.lexemes.items r.chars r.tokens.recce
        r.tokens.spans.items };
}

/// The characters of an input, which is copied.
pub fn copied_chars(alloc: Global, input: &[u8]) -> Result<Chars, Refusal>
    ensures utf8 { OnOk result (IsUtf8 input.now) }
    ensures ok { IfOk result (λ chars. chars ≡ chars_in input.now) }
    ensures refused { IfErr result (TellsRefusal (IsBrokenText input.now)) }
{
    input_chars(alloc, Vec::from_slice(alloc, input)?)
}

/// What is read of an input, with the lexemes that were given, which are copied.
pub fn reading_of<'g>(
    alloc: Global,
    prepared: &'g Prepared,
    lexemes: &[SymbolId],
    chars: Chars,
    tokens: scanless::Reading<'g>,
) -> Result<Reading<'g>, NoMemory>
    requires { IsHeld prepared.now lexemes.now chars tokens.recce tokens.spans.items }
    ensures { IfOk result (λ r. r ≡ record {
      grammar = prepared.now;
      lexemes = lexemes.now;
      characters = chars;
      spans = tokens.entry.spans.items;
    }) }
{
    match Vec::from_slice(alloc, lexemes) {
        Ok(lexemes) => Ok(Reading {
            prepared,
            lexemes,
            chars,
            tokens,
            arena: Bump::new(alloc),
        }),
        Err(error) => {
            drop(tokens);
            Err(error)
        }
    }
}

/// Reads the bytes of an input, on a counter of its own.
pub fn read_bytes<'g, L: Ledger>(
    blank: Blank,
    alloc: Global,
    prepared: &'g Prepared,
    input: &[u8],
) -> Result<Reading<'g>, Refusal>
    requires name { blank.name ≡ L.name }
    requires parts { blank.parts ≡ L.parts }
    requires some { 0 < blank.parts }
    ensures read { IfOk result (IsReadAs prepared.now [] input.now) }
    ensures refused { IfErr result (TellsRefusal (IsInputRefusedAt prepared.now [] input.now)) }
{
    if input.len() > LONGEST_INPUT {
        return Err(input_too_long(alloc, LONGEST_INPUT));
    }
    let chars = match copied_chars(alloc, input) {
        Ok(chars) => chars,
        Err(refusal) => return Err(refusal),
    };
    let mut steps = Steps::<L>::of_blank(blank);
    match read_text(alloc, prepared, &chars, &mut steps) {
        Ok(tokens) => Ok(Reading {
            prepared,
            lexemes: Vec::new(alloc),
            chars,
            tokens,
            arena: Bump::new(alloc),
        }),
        Err(refusal) => Err(refusal),
    }
}

impl<'g> Reading<'g> {
    /// The forest of the derivations of the tokens from the start symbol. `ranking` says whether ranks of rules count in their order, and
    /// which derivations are chosen.
    pub fn forest(&self, alloc: Global, ranking: Ranking) -> Result<Forest<'_>, ParseError>
        ensures forest { IfOk result (IsForestAs self.now ranking) }
        ensures refused { IfErr result (TellsInput
            (IsNoDerivation self.now.grammar self.now.lexemes ranking self.now.characters)) }
    {
        match forest_with::<Brand>(Blank::new(1), alloc, self, ranking) {
            Ok(forest) => Ok(forest),
            Err(refusal) => Err(error_of(alloc, refusal)),
        }
    }

    /// The lexemes that could come after the input, each once, by the bytes of their names. Those of an input
    /// that is refused stand in its error.
    pub fn expected(&self, alloc: Global) -> Result<Vec<SymbolId>, NoMemory>
        ensures { IfOk result (λ symbols. AreExpectedNext self.now symbols.items) }
    {
        expected_lexemes(alloc, self.prepared, &self.tokens.recce)
    }

    /// The line and the column of a character, or of the end where it lies behind that.
    pub fn place(&self, character: u32) -> Place
        ensures { result ≡ place_in self.now.characters character }
    {
        let at = (character as usize).min(self.chars.len());
        let (line, column) = self.chars.line_column(at);
        Place { line, column }
    }
}
