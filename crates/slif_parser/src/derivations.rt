//! The derivations of an input, one after another.
ghost use Rattle.std.specs.Prelude.{◌≡◌, ◌<◌, ◌++◌, [], List, length, map, Some, IfOk, IfErr, OnOk, OnErr, IfSome, IsSome, IsNone, IsFalse, IsTrue};
ghost use Rattle.grammar_model.specs.Trees.{Tree};
ghost use Rattle.grammar_core.specs.Steps.{step_of};
ghost use Rattle.grammar_model.specs.Steps.{steps_of};
ghost use Rattle.cursor_model.specs.Cursor.{cursor_text};
ghost use Rattle.cursor_model.specs.Laid.{Spells};
ghost use Rattle.tree_iter.specs.Iteration.{AreGiven, HasNone, IsAnswer, at_steps, between, begun};
ghost use Rattle.text_reading.specs.Parts.{HasForest};
ghost use Rattle.tree_fold.specs.Failing.{IsFailure};
ghost use Rattle.slif_parser.specs.Shown.{shown_line};
ghost use Rattle.slif_parser.specs.Readings.{IsAt, IsNext, IsPrefixOfAll, LacksCursor, ValueBy, FailsBy, IsAskedBy};

use crate::lines::append_shown;
use crate::{FoldError, NoMemory, Semantics, Show, Span, SymbolId, TreeStep};
use scanless::Prepared;
use slif_base::{Chars, Steps};
use std::alloc::{AllocError, Global};
use std::marker::{Brand, Model};
use std::sync::ledger::{Blank, Ledger};
use tree_cursor::{CursorRefusal, read_cursor, write_cursor};
use tree_fold::fold_steps;
use tree_iter::TreeIter;

/// The derivations of an input, one after another in the declared order, each once. It stands before the first, at one, or after the last.
#[derive(Drop)]
pub struct Derivations<'f> {
    prepared: &'f Prepared,
    lexemes: &'f [SymbolId],
    chars: &'f Chars,
    spans: &'f [Span],
    iter: TreeIter<'f>,
}

impl<'f> Model for Derivations<'f> {
    ghost use Rattle.slif_parser.specs.Views.{DerivationsOf, IsUnderWay};

    ghost Value = { DerivationsOf };

    ghost view = { λ d. record {
      read = record {
        grammar = d.prepared.now;
        lexemes = d.lexemes.now;
        characters = d.chars.now;
        spans = d.spans.now;
      };
      iteration = d.iter;
    } };

    ghost invariant = { λ d. IsUnderWay d.prepared.now d.lexemes.now d.chars.now d.spans.now
        d.iter };
}

// Goes on, on a counter of its own.
fn next_with<L: Ledger>(blank: Blank, iter: &mut TreeIter<'_>) -> Result<bool, NoMemory>
    requires name { blank.name ≡ L.name }
    requires parts { blank.parts ≡ L.parts }
    requires some { 0 < blank.parts }
    ensures answer { IfOk result (λ more. (given : List Tree) → AreGiven iter.old given →
        IsAnswer iter.new given more) }
    ensures stands { IfOk result (λ more. IsTrue more → IsSome iter.new.current) }
    ensures end { IfOk result (λ more. IsFalse more → iter.new ≡ between iter.old) }
    ensures forest { iter.new.forest ≡ iter.old.forest }
    ensures err { OnErr result (iter.new ≡ iter.old) }
{
    let mut steps = Steps::<L>::of_blank(blank);
    iter.next(&mut steps)
}

// Goes to the derivation that has these steps, on a counter of its own.
fn jump_with<L: Ledger>(
    blank: Blank,
    iter: &mut TreeIter<'_>,
    to: &[TreeStep],
) -> Result<bool, NoMemory>
    requires name { blank.name ≡ L.name }
    requires parts { blank.parts ≡ L.parts }
    requires some { 0 < blank.parts }
    ensures found { IfOk result (λ found. IsTrue found →
        (iter.new ≡ at_steps iter.old.forest (map step_of to.now)) ×
        ((given : List Tree) × AreGiven iter.new given)) }
    ensures missed { IfOk result (λ found. IsFalse found → (iter.new ≡ iter.old) ×
        HasNone iter.old.forest (map step_of to.now)) }
    ensures err { OnErr result (iter.new ≡ iter.old) }
{
    let mut steps = Steps::<L>::of_blank(blank);
    iter.jump(to, &mut steps)
}

// The steps that a text spells, if it spells any.
fn steps_spelled(alloc: Global, text: &str) -> Result<Option<Vec<TreeStep>>, NoMemory>
    ensures some { IfOk result (λ found. IfSome found (λ steps. (tree : Tree) ×
        Spells text.now tree × (map step_of steps.items ≡ steps_of tree))) }
    ensures none { IfOk result (λ found. IsNone found → (tree : Tree) → Spells text.now tree → ⊥) }
{
    match read_cursor(alloc, text) {
        Ok(steps) => Ok(Some(steps)),
        Err(CursorRefusal::BadCursor) => Ok(None),
        Err(CursorRefusal::NoMemory) => Err(AllocError),
    }
}

impl<'f> Derivations<'f> {
    /// Those of a forest.
    pub(crate) fn of(
        alloc: Global,
        prepared: &'f Prepared,
        lexemes: &'f [SymbolId],
        chars: &'f Chars,
        spans: &'f [Span],
        forest: &'f bocage::Forest<'f>,
    ) -> Result<Derivations<'f>, NoMemory>
        requires { HasForest prepared.now lexemes.now forest.now.ranking chars.now spans.now
            forest.now }
        ensures view { IfOk result (λ d. d ≡ record {
          read = record {
            grammar = prepared.now;
            lexemes = lexemes.now;
            characters = chars.now;
            spans = spans.now;
          };
          iteration = begun forest.now;
        }) }
        ensures none { IfOk result (λ d. AreGiven d.iteration []) }
    {
        let iter = TreeIter::new(alloc, forest)?;
        Ok(Derivations {
            prepared,
            lexemes,
            chars,
            spans,
            iter,
        })
    }

    /// Goes to the next derivation, and answers whether there is one. A call that runs out of memory leaves all as it was, and the next call
    /// goes on.
    pub fn next(&mut self) -> Result<bool, NoMemory>
        ensures answer { IfOk result (λ more. (given : List Tree) →
            AreGiven self.old.iteration given → IsNext self.new given more) }
        ensures stands { IfOk result (λ more. IsTrue more → IsSome self.new.iteration.current) }
        ensures first { AreGiven self.old.iteration [] → IfOk result IsTrue }
        ensures end { IfOk result (λ more. IsFalse more →
            self.new.iteration ≡ between self.old.iteration) }
        ensures read { self.new.read ≡ self.old.read }
        ensures forest { self.new.iteration.forest ≡ self.old.iteration.forest }
        ensures err { OnErr result (self.new ≡ self.old) }
    {
        self.prepared.known();
        next_with::<Brand>(Blank::new(1), &mut self.iter)
    }

    /// States that those given are the first of all derivations.
    pub fn known(&self)
        ensures { (given : List Tree) → AreGiven self.now.iteration given →
            IsPrefixOfAll self.now given }
    {
        let _ = &self.iter;
    }

    /// The steps of the current derivation, children before their rule.
    pub fn steps(&self) -> &[TreeStep]
        requires { IsSome self.now.iteration.current }
        ensures { IfSome self.now.iteration.current (λ steps. map step_of result.now ≡ steps) }
    {
        self.iter.current_steps()
    }

    /// Appends the cursor of the current derivation: a text by which `go_to` finds it again, also in another run. It has at least a byte
    /// for each step.
    pub fn append_cursor(&self, out: &mut Vec<u8>) -> Result<(), NoMemory>
        requires { IsSome self.now.iteration.current }
        ensures ok { OnOk result (IfSome self.now.iteration.current
            (λ steps. out.new.items ≡ out.old.items ++ cursor_text steps)) }
        ensures err { OnErr result (out.new.items ≡ out.old.items) }
    {
        write_cursor(self.iter.current_steps(), out)
    }

    /// Appends the line of the current derivation: its value, as the program `slif` shows it, and a line feed.
    pub fn append_line(&self, alloc: Global, show: Show, line: &mut Vec<u8>) -> Result<(), NoMemory>
        requires { IsSome self.now.iteration.current }
        ensures ok { (t : Tree) → self.now.iteration.current ≡ Some (steps_of t) →
            OnOk result (line.new.items ≡ line.old.items ++ shown_line self.now.read show t) }
        ensures err { OnErr result (line.new.items ≡ line.old.items) }
    {
        self.prepared.known();
        append_shown(
            alloc,
            self.prepared,
            self.chars,
            self.spans,
            self.iter.current_steps(),
            show,
            line,
        )
    }

    /// Goes to the derivation that has this cursor, and answers whether there is one; `next` goes on after it. Nothing before it is listed.
    /// A text of more than 16,777,216 bytes is the cursor of none. Without one, or without memory, all stays as it was.
    pub fn go_to(&mut self, alloc: Global, cursor: &str) -> Result<bool, NoMemory>
        ensures found { IfOk result (λ found. IsTrue found → IsAt self.new cursor.now) }
        ensures stands { IfOk result (λ found. IsTrue found → IsSome self.new.iteration.current) }
        ensures missed { IfOk result (λ found. IsFalse found → LacksCursor self.old cursor.now) }
        ensures stays { IfOk result (λ found. IsFalse found → self.new ≡ self.old) }
        ensures read { self.new.read ≡ self.old.read }
        ensures forest { self.new.iteration.forest ≡ self.old.iteration.forest }
        ensures err { OnErr result (self.new ≡ self.old) }
    {
        self.prepared.known();
        self.prepared.written().known();
        let Some(steps) = steps_spelled(alloc, cursor)? else {
            return Ok(false);
        };
        jump_with::<Brand>(Blank::new(1), &mut self.iter, &steps)
    }

    /// The value of the current derivation by a semantics of the caller's own, which is asked once for each of its parts, from the left,
    /// children before their rule, up to the first error. Values wait on one stack.
    pub fn fold<S: Semantics>(
        &self,
        alloc: Global,
        semantics: &mut S,
    ) -> Result<S::Value, FoldError<S::Error>>
        requires { IsSome self.now.iteration.current }
        ensures value { IfOk result (λ v. ValueBy S.token_gives S.nulled_gives S.rule_gives self.now
            semantics.old v semantics.new) }
        ensures failure { IfErr result (IsFailure
            (λ e. FailsBy S.token_gives S.nulled_gives S.rule_gives self.now semantics.old e
            semantics.new)
            (IsAskedBy S.token_gives S.nulled_gives S.rule_gives self.now semantics.old
            semantics.new)) }
    {
        self.prepared.known();
        fold_steps(
            alloc,
            self.prepared.written(),
            self.chars,
            self.spans,
            self.iter.current_steps(),
            semantics,
        )
    }
}
