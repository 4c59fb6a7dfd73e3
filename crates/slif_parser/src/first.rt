//! The first derivation of an input, without a forest.
ghost use Rattle.std.specs.Prelude.{◌≡◌, ◌<◌, ◌++◌, map, IfOk, IfErr, OnOk, OnErr};
ghost use Rattle.grammar_core.specs.Steps.{step_of};
ghost use Rattle.grammar_model.specs.Steps.{steps_of};
ghost use Rattle.grammar_model.specs.Trees.{Tree};
ghost use Rattle.cursor_model.specs.Cursor.{cursor_text};
ghost use Rattle.text_reading.specs.Refusals.{IsNoDerivation, TellsInput as TellsRefusal};
ghost use Rattle.tree_fold.specs.Failing.{IsFailure};
ghost use Rattle.slif_parser.specs.Errors.{TellsInput};
ghost use Rattle.slif_parser.specs.Readings.{IsFirst, IsDerivedAs, ValueOf, FailsOf, IsAskedOf};
ghost use Rattle.slif_parser.specs.Shown.{shown_line};
ghost use Rattle.slif_parser.specs.Views.{CanBePlayed};

use crate::error::error_of;
use crate::lines::append_shown;
use crate::{
    FoldError, Forest, NoMemory, ParseError, Ranking, Reading, Semantics, Show, Span, SymbolId,
    TreeStep,
};
use forest_parts::Given;
use scanless::Prepared;
use slif_base::{Chars, Steps};
use std::alloc::Global;
use std::marker::{Brand, Model};
use std::sync::ledger::{Blank, Ledger};
use text_reading::{Refusal, first_of, forest_after, only_of};
use tree_cursor::write_cursor;
use tree_fold::fold_steps;

/// The first derivation of an input, in the declared order, found without a forest.
#[derive(Drop)]
pub struct First<'r> {
    prepared: &'r Prepared,
    lexemes: &'r [SymbolId],
    chars: &'r Chars,
    spans: &'r [Span],
    steps: Vec<TreeStep>,
    only: bool,
}

impl<'r> Model for First<'r> {
    ghost use Rattle.std.specs.Prelude.{map};
    ghost use Rattle.grammar_core.specs.Steps.{step_of};
    ghost use Rattle.slif_parser.specs.Views.{CanBePlayed, FirstOf};

    ghost Value = { FirstOf };

    ghost view = { λ f. record {
      read = record {
        grammar = f.prepared.now;
        lexemes = f.lexemes.now;
        characters = f.chars.now;
        spans = f.spans.now;
      };
      steps = map step_of f.steps.items;
      only = f.only;
    } };

    ghost invariant = { λ f. CanBePlayed f.prepared.now f.chars.now f.spans.now
        (map step_of f.steps.items) };
}

/// The derivations of an input: the only one, or a forest of them.
#[derive(Drop)]
pub enum Derived<'r> {
    Only(First<'r>),
    Forest(Forest<'r>),
}

// Finds the first derivation, on a counter of its own.
fn first_with<'r, L: Ledger>(
    blank: Blank,
    alloc: Global,
    reading: &'r Reading<'r>,
    ranking: Ranking,
) -> Result<First<'r>, Refusal>
    requires name { blank.name ≡ L.name }
    requires parts { blank.parts ≡ L.parts }
    requires some { 0 < blank.parts }
    ensures first { IfOk result (IsFirst reading.now ranking) }
    ensures refused { IfErr result (TellsRefusal
        (IsNoDerivation reading.now.grammar reading.now.lexemes ranking
        reading.now.characters)) }
{
    reading.prepared.known();
    let mut before = Given::new(alloc);
    let mut steps = Steps::<L>::of_blank(blank);
    match first_of(
        alloc,
        reading.prepared,
        ranking,
        false,
        &reading.chars,
        &reading.tokens,
        &mut before,
        &mut steps,
    ) {
        Ok(Some(walked)) => Ok(First::of(reading, walked.steps, walked.alone)),
        Ok(None) => unreachable!(),
        Err(refusal) => Err(refusal),
    }
}

// Finds the only derivation or builds the forest, on a counter of its own.
fn derived_with<'r, L: Ledger>(
    blank: Blank,
    alloc: Global,
    reading: &'r Reading<'r>,
    ranking: Ranking,
) -> Result<Derived<'r>, Refusal>
    requires name { blank.name ≡ L.name }
    requires parts { blank.parts ≡ L.parts }
    requires some { 0 < blank.parts }
    ensures derived { IfOk result (IsDerivedAs reading.now ranking) }
    ensures refused { IfErr result (TellsRefusal
        (IsNoDerivation reading.now.grammar reading.now.lexemes ranking
        reading.now.characters)) }
{
    reading.prepared.known();
    let mut before = Given::new(alloc);
    let mut steps = Steps::<L>::of_blank(blank);
    match only_of(
        alloc,
        reading.prepared,
        ranking,
        None,
        &reading.chars,
        &reading.tokens,
        &mut before,
        &mut steps,
    ) {
        Ok(Some(found)) => Ok(Derived::Only(First::of(reading, found, true))),
        Ok(None) => match forest_after(
            alloc,
            &reading.arena,
            reading.prepared,
            ranking,
            &reading.chars,
            &reading.tokens,
            &before,
            &mut steps,
        ) {
            Ok(forest) => Ok(Derived::Forest(Forest::of(reading, forest))),
            Err(refusal) => Err(refusal),
        },
        Err(refusal) => Err(refusal),
    }
}

impl<'g> Reading<'g> {
    /// The first derivation of the tokens from the start symbol, in the order of the forest's, without a forest.
    pub fn first(&self, alloc: Global, ranking: Ranking) -> Result<First<'_>, ParseError>
        ensures first { IfOk result (IsFirst self.now ranking) }
        ensures refused { IfErr result (TellsInput
            (IsNoDerivation self.now.grammar self.now.lexemes ranking self.now.characters)) }
    {
        match first_with::<Brand>(Blank::new(1), alloc, self, ranking) {
            Ok(first) => Ok(first),
            Err(refusal) => Err(error_of(alloc, refusal)),
        }
    }

    /// The only derivation, for which no forest is built, or the forest where there are others.
    pub fn derived(&self, alloc: Global, ranking: Ranking) -> Result<Derived<'_>, ParseError>
        ensures derived { IfOk result (IsDerivedAs self.now ranking) }
        ensures refused { IfErr result (TellsInput
            (IsNoDerivation self.now.grammar self.now.lexemes ranking self.now.characters)) }
    {
        match derived_with::<Brand>(Blank::new(1), alloc, self, ranking) {
            Ok(derived) => Ok(derived),
            Err(refusal) => Err(error_of(alloc, refusal)),
        }
    }
}

impl<'r> First<'r> {
    // That of these steps.
    fn of(reading: &'r Reading<'r>, steps: Vec<TreeStep>, only: bool) -> First<'r>
        requires { CanBePlayed reading.now.grammar reading.now.characters reading.now.spans
            (map step_of steps.items) }
        ensures { result ≡ record {
          read = reading.now;
          steps = map step_of steps.items;
          only = only;
        } }
    {
        First {
            prepared: reading.prepared,
            lexemes: reading.lexemes.as_slice(),
            chars: &reading.chars,
            spans: reading.tokens.spans.as_slice(),
            steps,
            only,
        }
    }

    /// Whether it is the only one.
    pub fn is_only(&self) -> bool
        ensures { result ≡ self.now.only }
    {
        self.only
    }

    /// Its steps, children before their rule.
    pub fn steps(&self) -> &[TreeStep]
        ensures { map step_of result.now ≡ self.now.steps }
    {
        &self.steps
    }

    /// Appends its cursor: a text by which `Derivations::go_to` finds it again, also in another run.
    pub fn append_cursor(&self, out: &mut Vec<u8>) -> Result<(), NoMemory>
        ensures ok { OnOk result (out.new.items ≡ out.old.items ++ cursor_text self.now.steps) }
        ensures err { OnErr result (out.new.items ≡ out.old.items) }
    {
        write_cursor(&self.steps, out)
    }

    /// Appends its line: its value, as the program `slif` shows it, and a line feed.
    pub fn append_line(&self, alloc: Global, show: Show, line: &mut Vec<u8>) -> Result<(), NoMemory>
        ensures ok { (t : Tree) → self.now.steps ≡ steps_of t →
            OnOk result (line.new.items ≡ line.old.items ++ shown_line self.now.read show t) }
        ensures err { OnErr result (line.new.items ≡ line.old.items) }
    {
        append_shown(
            alloc,
            self.prepared,
            self.chars,
            self.spans,
            &self.steps,
            show,
            line,
        )
    }

    /// Its value by a semantics of the caller's own, as `Derivations::fold` tells.
    pub fn fold<S: Semantics>(
        &self,
        alloc: Global,
        semantics: &mut S,
    ) -> Result<S::Value, FoldError<S::Error>>
        ensures value { IfOk result (λ v. ValueOf S.token_gives S.nulled_gives S.rule_gives
            self.now.read self.now.steps semantics.old v semantics.new) }
        ensures failure { IfErr result (IsFailure
            (λ e. FailsOf S.token_gives S.nulled_gives S.rule_gives self.now.read self.now.steps
            semantics.old e semantics.new)
            (IsAskedOf S.token_gives S.nulled_gives S.rule_gives self.now.read self.now.steps
            semantics.old semantics.new)) }
    {
        fold_steps(
            alloc,
            self.prepared.written(),
            self.chars,
            self.spans,
            &self.steps,
            semantics,
        )
    }
}
