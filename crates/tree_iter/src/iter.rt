//! The iterator over the derivations of a forest.
ghost use Rattle.std.specs.Prelude.{◌≡◌, ◌+◌, ◌*◌, ◌<◌, ◌≤◌, ◌++◌, [], List, length, map, vec_len, vec_capacity, IfOk, OnOk, OnErr, IfSome, IsSome, IsTrue, IsFalse};
ghost use Rattle.grammar_core.specs.Steps.{step_of};
ghost use Rattle.grammar_model.specs.Trees.{Tree};
ghost use Rattle.tree_iter.specs.Walk.{Keeps};
ghost use Rattle.tree_iter.specs.Iteration.{AreGiven, IsAnswer, AreFew, HasNone, at_steps, between, begun};

use crate::jump::lead_to;
use crate::walk::{Place, Walk, advance};
use bocage::Forest;
use grammar_core::TreeStep;
use slif_base::Steps;
use std::alloc::{AllocError as NoMemory, Global};
use std::marker::Model;
use std::sync::ledger::Ledger;

/// Where an iterator stands: before the first derivation, at one whose steps are in the walk or were copied before the walk went on, or
/// after the last.
#[derive(Clone, Copy)]
pub enum Current {
    Begun,
    Walked,
    Copied,
    Ended,
}

/// The derivations of a forest, one after another in the declared order. Two that follow each other share what they have in common at
/// their beginning.
#[derive(Drop)]
pub struct TreeIter<'f> {
    walk: Walk<'f>,
    place: Place,
    current: Current,
    copy: Vec<TreeStep>,
}

impl<'f> Model for TreeIter<'f> {
    ghost use Rattle.tree_iter.specs.Iteration.{Iteration};
    ghost use Rattle.tree_iter.specs.Walk.{IsUnderWay, current_of, has_ended};

    ghost Value = { Iteration };

    ghost view = { λ i. record {
      forest = i.walk.forest.now;
      ended = has_ended i.current;
      current = current_of i.current i.walk.steps.items i.copy.items;
    } };

    ghost invariant = { λ i. IsUnderWay i.walk i.place i.current i.copy.items };
}

// Copies steps in place of others.
fn replace(copy: &mut Vec<TreeStep>, steps: &[TreeStep]) -> Result<(), NoMemory>
    ensures ok { OnOk result (copy.new.items ≡ steps.now) }
    ensures err { OnErr result (copy.new.items ≡ copy.old.items) }
{
    copy.reserve(steps.len().saturating_sub(copy.len()))?;
    copy.clear();
    match copy.extend_from_slice(steps) {
        Ok(()) => Ok(()),
        Err(_) => unreachable!(),
    }
}

// Copies the current steps where the walk has them, so that it may go on.
fn keep(
    current: &mut Current,
    copy: &mut Vec<TreeStep>,
    walked: &[TreeStep],
) -> Result<(), NoMemory>
    ensures ok { OnOk result ((others : List TreeStep) →
        Keeps current.old current.new walked.now others copy.old.items copy.new.items) }
    ensures err { OnErr result ((current.new ≡ current.old) × (copy.new.items ≡ copy.old.items)) }
{
    if let Current::Walked = *current {
        replace(copy, walked)?;
        *current = Current::Copied;
    }
    Ok(())
}

impl<'f> TreeIter<'f> {
    /// An iterator before the first derivation.
    pub fn new(alloc: Global, forest: &'f Forest<'f>) -> Result<TreeIter<'f>, NoMemory>
        ensures begun { IfOk result (λ iter. iter ≡ begun forest.now) }
        ensures none { IfOk result (λ iter. AreGiven iter []) }
    {
        let walk = Walk::begin(alloc, forest)?;
        Ok(TreeIter {
            walk,
            place: Place::Walking,
            current: Current::Begun,
            copy: Vec::new(alloc),
        })
    }

    /// Goes to the next derivation. Answers whether there is one; after the last it stands at none. A call that runs out of memory
    /// leaves the iterator where it stands, and the next call goes on with what it has found; more than 2^32 flat steps of one derivation
    /// count as too many for memory. Only looks at alternatives raise `steps`: what a derivation shares with the one
    /// before it at its beginning is not looked at again.
    pub fn next<L: Ledger>(&mut self, steps: &mut Steps<L>) -> Result<bool, NoMemory>
        ensures answer { IfOk result (λ more. (given : List Tree) → AreGiven self.old given →
            IsAnswer self.new given more) }
        ensures stands { IfOk result (λ more. IsTrue more → IsSome self.new.current) }
        ensures end { IfOk result (λ more. IsFalse more → self.new ≡ between self.old) }
        ensures few { IfOk result (λ more. (given : List Tree) → AreGiven self.old given →
            AreFew self.new given more steps.old steps.new) }
        ensures forest { self.new.forest ≡ self.old.forest }
        ensures err { OnErr result (self.new ≡ self.old) }
    {
        if let Place::Between = self.place {
            if self.walk.is_spent() {
                self.current = Current::Ended;
                return Ok(false);
            }
        }
        keep(&mut self.current, &mut self.copy, &self.walk.steps)?;
        if !advance(&mut self.walk, &mut self.place, steps)? {
            self.current = Current::Ended;
            return Ok(false);
        }
        self.place = Place::Between;
        self.current = Current::Walked;
        Ok(true)
    }

    /// Goes to the derivation that has these steps. Answers whether there is one: then the derivations up to and with that one, and no
    /// others, count as given, and `next` goes on with the following one. Without one, or without memory, the iterator stays where it
    /// stands. It takes at most seven steps of the counter for each entry, whatever the answer is.
    pub fn jump<L: Ledger>(
        &mut self,
        to: &[TreeStep],
        steps: &mut Steps<L>,
    ) -> Result<bool, NoMemory>
        ensures found { IfOk result (λ found. IsTrue found →
            (self.new ≡ at_steps self.old.forest (map step_of to.now)) ×
            ((given : List Tree) × AreGiven self.new given)) }
        ensures missed { IfOk result (λ found. IsFalse found → (self.new ≡ self.old) ×
            HasNone self.old.forest (map step_of to.now)) }
        ensures err { OnErr result (self.new ≡ self.old) }
        ensures few { steps.new ≤ steps.old + 7 * length to.now }
    {
        let alloc = *self.copy.allocator();
        let mut walk = Walk::begin(alloc, self.walk.forest)?;
        if !lead_to(alloc, &mut walk, to, steps)? {
            return Ok(false);
        }
        self.walk = walk;
        self.place = Place::Between;
        self.current = Current::Walked;
        Ok(true)
    }

    /// The steps of the current derivation, children before their rule.
    pub fn current_steps(&self) -> &[TreeStep]
        requires { IsSome self.now.current }
        ensures { IfSome self.now.current (λ steps. map step_of result.now ≡ steps) }
    {
        match self.current {
            Current::Begun | Current::Ended => unreachable!(),
            Current::Walked => self.walk.steps.as_slice(),
            Current::Copied => self.copy.as_slice(),
        }
    }

    /// How many steps the current derivation has.
    pub fn steps_needed(&self) -> usize
        requires { IsSome self.now.current }
        ensures { IfSome self.now.current (λ steps. result ≡ length steps) }
    {
        self.current_steps().len()
    }

    /// Appends the steps of the current derivation, children before their rule. It takes no memory but for room in `out`.
    pub fn steps_of(&self, out: &mut Vec<TreeStep>) -> Result<(), NoMemory>
        requires { IsSome self.now.current }
        ensures ok { OnOk result (IfSome self.now.current
            (λ steps. map step_of out.new.items ≡ map step_of out.old.items ++ steps)) }
        ensures err { OnErr result (out.new.items ≡ out.old.items) }
        ensures full { OnErr result (IfSome self.now.current
            (λ steps. vec_capacity out.old < vec_len out.old + length steps)) }
    {
        out.extend_from_slice(self.current_steps())?;
        Ok(())
    }
}
