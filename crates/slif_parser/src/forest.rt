//! The forest of an input's derivations.
ghost use Rattle.std.specs.Prelude.{◌≡◌, ◌<◌, slice_range, IfOk, IfErr, chars as chars_in};
ghost use Rattle.grammar_model.specs.declared.Ranking.TheVariants.{Rule};
ghost use Rattle.text_reading.specs.Parts.{HasForest};
ghost use Rattle.text_reading.specs.Refusals.{IsNoDerivation, TellsInput};
ghost use Rattle.slif_parser.specs.Readings.{AreGladesOf, IsForestAs, IsBegun, end_at, start_at};

use crate::places::{end_of, start_of, text_between};
use crate::{Derivations, NoMemory, Ranking, Reading};
use glades::{Glade, report_glades};
use grammar_core::{Span, SymbolId};
use scanless::Prepared;
use slif_base::{Chars, Steps};
use std::alloc::Global;
use std::marker::{Brand, Model};
use std::sync::ledger::{Blank, Ledger};
use text_reading::{Refusal, forest_of};

/// The forest of an input's derivations, of which there is at least one.
#[derive(Drop)]
pub struct Forest<'r> {
    prepared: &'r Prepared,
    lexemes: &'r [SymbolId],
    chars: &'r Chars,
    spans: &'r [Span],
    forest: bocage::Forest<'r>,
}

impl<'r> Model for Forest<'r> {
    ghost use Rattle.text_reading.specs.Parts.{HasForest};
    ghost use Rattle.slif_parser.specs.Views.{ForestOf};

    ghost Value = { ForestOf };

    ghost view = { λ f. record {
      read = record {
        grammar = f.prepared.now;
        lexemes = f.lexemes.now;
        characters = f.chars.now;
        spans = f.spans.now;
      };
      forest = f.forest;
    } };

    ghost invariant = { λ f. HasForest f.prepared.now f.lexemes.now f.forest.ranking f.chars.now
        f.spans.now f.forest };
}

/// Builds the forest of a reading, on a counter of its own.
pub fn forest_with<'r, L: Ledger>(
    blank: Blank,
    alloc: Global,
    reading: &'r Reading<'r>,
    ranking: Ranking,
) -> Result<Forest<'r>, Refusal>
    requires name { blank.name ≡ L.name }
    requires parts { blank.parts ≡ L.parts }
    requires some { 0 < blank.parts }
    ensures forest { IfOk result (IsForestAs reading.now ranking) }
    ensures refused { IfErr result (TellsInput
        (IsNoDerivation reading.now.grammar reading.now.lexemes ranking
        reading.now.characters)) }
{
    let mut steps = Steps::<L>::of_blank(blank);
    match forest_of(
        alloc,
        &reading.arena,
        reading.prepared,
        ranking,
        &reading.chars,
        &reading.tokens,
        &mut steps,
    ) {
        Ok(forest) => Ok(Forest::of(reading, forest)),
        Err(refusal) => Err(refusal),
    }
}

// The report of a forest, on a counter of its own.
fn glades_with<L: Ledger>(
    blank: Blank,
    alloc: Global,
    forest: &Forest<'_>,
) -> Result<Vec<Glade>, NoMemory>
    requires name { blank.name ≡ L.name }
    requires parts { blank.parts ≡ L.parts }
    requires some { 0 < blank.parts }
    requires ranking { forest.now.forest.ranking ≡ Rule }
    ensures { IfOk result (λ glades. AreGladesOf forest.now.read glades.items) }
{
    let mut steps = Steps::<L>::of_blank(blank);
    forest.forest.known();
    report_glades(alloc, &forest.forest, forest.prepared.written(), &mut steps)
}

impl<'r> Forest<'r> {
    /// That of a reading.
    pub(crate) fn of(reading: &'r Reading<'r>, forest: bocage::Forest<'r>) -> Forest<'r>
        requires { HasForest reading.now.grammar reading.now.lexemes forest.ranking
            reading.now.characters reading.now.spans forest }
        ensures { result ≡ record { read = reading.now; forest = forest.entry } }
    {
        Forest {
            prepared: reading.prepared,
            lexemes: reading.lexemes.as_slice(),
            chars: &reading.chars,
            spans: reading.tokens.spans.as_slice(),
            forest,
        }
    }

    /// The derivations, one after another; it stands before the first.
    pub fn derivations(&self, alloc: Global) -> Result<Derivations<'_>, NoMemory>
        ensures { IfOk result (IsBegun self.now) }
    {
        Derivations::of(
            alloc,
            self.prepared,
            self.lexemes,
            self.chars,
            self.spans,
            &self.forest,
        )
    }

    /// Where the derivations differ: each symbol over tokens that a derivation uses and whose trees have more than one shape, with the first
    /// two shapes. The places count tokens; `start` and `end` tell their characters. It is empty exactly where there is one derivation.
    pub fn glades(&self, alloc: Global) -> Result<Vec<Glade>, NoMemory>
        requires { self.now.forest.ranking ≡ Rule }
        ensures { IfOk result (λ glades. AreGladesOf self.now.read glades.items) }
    {
        glades_with::<Brand>(Blank::new(1), alloc, self)
    }

    /// The character where the token at a place begins; where there is none, where the one before ends.
    pub fn start(&self, place: u32) -> u32
        ensures { result ≡ start_at self.now.read.spans place }
    {
        self.prepared.known();
        start_of(self.spans, place)
    }

    /// The character where the token before a place ends; 0 where there is no such token.
    pub fn end(&self, place: u32) -> u32
        ensures { result ≡ end_at self.now.read.spans place }
    {
        self.prepared.known();
        end_of(self.spans, place)
    }

    /// The text between two characters, as much of it as is in the input.
    pub fn text(&self, start: u32, end: u32) -> &str
        ensures { chars_in result.now ≡ slice_range self.now.read.characters start end }
    {
        text_between(self.chars, start, end)
    }
}
