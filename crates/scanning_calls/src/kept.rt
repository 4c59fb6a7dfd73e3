//! Some of the derivations of what was read.
ghost use Rattle.std.specs.Prelude.{◌≡◌, ◌<◌, [], List, IfOk, IsFalse, IsTrue, length};
ghost use Rattle.grammar_model.specs.Trees.{Tree};
ghost use Rattle.forest_model.specs.Listing.{IsListing};
ghost use Rattle.tree_iter.specs.Iteration.{AreGiven};
ghost use Rattle.marpa_script.specs.Machines.{reading};
ghost use Rattle.scanning_calls.specs.Calls.{DerivationsAnswer};
ghost use Rattle.scanning_calls.specs.Kept.{AreSomeOf};
ghost use Rattle.scanning_calls.specs.Machines.{ReadsOver};

use crate::ScanRefusal;
use bocage::{Forest, ForestRefusal};
use bumpalo::Bump;
use earley_sets::{Recce, trees_are_derivations};
use grammar_core::{TreeStep, Written};
use grammar_model::Ranking;
use slif_base::Steps;
use std::alloc::{AllocError, Global};
use std::sync::ledger::{Blank, Ledger};
use tree_iter::TreeIter;

/// Some derivations, each by its steps, and whether there are more after them.
#[derive(Drop)]
pub struct Kept {
    pub derivations: Vec<Vec<TreeStep>>,
    pub more: bool,
}

// Passes over so many derivations, and answers whether there are as many.
fn pass<L: Ledger>(
    iter: &mut TreeIter<'_>,
    count: u64,
    steps: &mut Steps<L>,
) -> Result<bool, AllocError>
    requires { AreGiven iter.old [] }
    ensures passed { IfOk result (λ all. IsTrue all →
        (given : List Tree) × AreGiven iter.new given × (length given ≡ count)) }
    ensures short { IfOk result (λ all. IsFalse all →
        (trees : List Tree) × IsListing iter.new.forest trees × (length trees < count)) }
    ensures forest { iter.new.forest ≡ iter.old.forest }
{
    'passed: for _ in 0..count {
        if !iter.next(steps)? {
            return Ok(false);
        }
    }
    Ok(true)
}

// The steps of the current derivation, copied.
fn copied(alloc: Global, steps: &[TreeStep]) -> Result<Vec<TreeStep>, AllocError>
    ensures { IfOk result (λ copy. copy.items ≡ steps.now) }
{
    Vec::from_slice(alloc, steps)
}

// The next so many derivations, or those that are left.
fn gather<L: Ledger>(
    alloc: Global,
    iter: &mut TreeIter<'_>,
    most: u64,
    steps: &mut Steps<L>,
) -> Result<Kept, AllocError>
    ensures { IfOk result (λ kept. (given : List Tree) → AreGiven iter.old given →
        AreSomeOf iter.old.forest (length given) most kept) }
{
    let mut kept = Vec::new(alloc);
    'kept: for _ in 0..most {
        if !iter.next(steps)? {
            return Ok(Kept {
                derivations: kept,
                more: false,
            });
        }
        kept.push(copied(alloc, iter.current_steps())?)?;
    }
    let more = iter.next(steps)?;
    Ok(Kept {
        derivations: kept,
        more,
    })
}

// At most so many derivations of a forest, after so many.
fn some_of<L: Ledger>(
    alloc: Global,
    forest: &Forest<'_>,
    skip: u64,
    most: u64,
    steps: &mut Steps<L>,
) -> Result<Kept, AllocError>
    ensures { IfOk result (AreSomeOf forest.now skip most) }
{
    let mut iter = TreeIter::new(alloc, forest)?;
    if pass(&mut iter, skip, steps)? {
        gather(alloc, &mut iter, most, steps)
    } else {
        Ok(Kept {
            derivations: Vec::new(alloc),
            more: false,
        })
    }
}

/// At most so many derivations of what was read, after so many, on a counter of its own.
pub fn derive<L: Ledger>(
    blank: Blank,
    alloc: Global,
    w: &Written,
    recce: &Recce<'_>,
    skip: u64,
    most: u64,
) -> Result<Kept, ScanRefusal>
    requires name { blank.name ≡ L.name }
    requires parts { blank.parts ≡ L.parts }
    requires some { 0 < blank.parts }
    requires reads { ReadsOver w.now recce.now }
    ensures { DerivationsAnswer (reading w.now recce.now) skip most result (reading w.now recce.now) }
{
    trees_are_derivations();
    let _place = recce.place();
    let mut steps = Steps::<L>::of_blank(blank);
    let arena = Bump::new(alloc);
    match Forest::build(alloc, &arena, recce, w, Ranking::Rule, &mut steps) {
        Ok(forest) => {
            let kept = some_of(alloc, &forest, skip, most, &mut steps);
            drop(forest);
            match kept {
                Ok(kept) => Ok(kept),
                Err(_) => Err(ScanRefusal::NoMemory),
            }
        }
        Err(ForestRefusal::NoParse) => Ok(Kept {
            derivations: Vec::new(alloc),
            more: false,
        }),
        Err(ForestRefusal::NoMemory) => Err(ScanRefusal::NoMemory),
    }
}
