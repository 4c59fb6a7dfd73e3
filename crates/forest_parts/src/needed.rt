//! The hidden items of a place that are needed: those below topmost items that are asked for, as the nodes tell that were met so far.
ghost use Rattle.std.specs.Prelude.{◌≡◌, ℕ, ◌+◌, ◌≤◌, ◌⊎◌, ◌↔◌, length, IfOk, OnOk, IsTrue, Contains};
ghost use Rattle.recognizer_model.specs.declared.Item.{Item as TheItem};
ghost use Rattle.recognizer_model.specs.Flat.{IsRule};
ghost use Rattle.recognizer_model.specs.FlatForm.{IsFlatOf};
ghost use Rattle.recognizer_model.specs.Counts.{IsListOf};
ghost use Rattle.earley_sets.specs.Below.{StandsBelowOf};
ghost use Rattle.earley_sets.specs.Recognizer.{IsRecognizer, earleme_of};
ghost use Rattle.earley_sets.specs.Below.{StandsBelowOf};
ghost use Rattle.forest_parts.specs.Hidden.{IsHiddenFrom, RisesWithin};
ghost use Rattle.forest_parts.specs.Given.{AreBelowTops};
ghost use Rattle.forest_parts.specs.Needed.{MayBeUsed, LeadsOver, AreTops, IsBelowAsked, IsAskedAnew, IsAskedBeside};

use crate::NodeKeys;
use crate::given::{Given, GivenHere};
use crate::unasked::{ItemSet, list_unasked};
use earley_sets::Recce;
use grammar_core::Written;
use grammar_model::Ranking;
use recognizer_model::Item;
use slif_base::Steps;
use std::alloc::{AllocError, AllocFailed, Global};
use std::sync::ledger::Ledger;

// Whether a whole item that begins at `least` or after it may be that of a node.
fn may_be_used(unasked: &ItemSet, least: u32, item: Item) -> bool
    ensures { IsTrue result ↔ MayBeUsed unasked.now.keys least item }
{
    least <= item.origin && !unasked.contains(&item)
}

// Puts an item, and the topmost one that it leads up to, if that may be that of a node.
fn put_top(
    recce: &Recce<'_>,
    unasked: &ItemSet,
    end: u32,
    least: u32,
    item: Item,
    tops: &mut Vec<Item>,
    bottoms: &mut Vec<Item>,
) -> Result<(), AllocError>
    requires is { IsRecognizer recce.now }
    requires end { end ≤ earleme_of recce.now }
    requires rule { IsRule recce.now.flat item.rule }
    ensures tops { OnOk result ((x : TheItem) → Contains tops.new.items x ↔
        (Contains tops.old.items x ⊎ LeadsOver recce.now unasked.now.keys end least item x)) }
    ensures bottoms { OnOk result ((x : TheItem) → Contains bottoms.new.items x ↔
        (Contains bottoms.old.items x ⊎ ((x ≡ item) × ((top : TheItem) × LeadsOver recce.now unasked.now.keys end least item top)))) }
{
    if let Some(top) = recce.topmost(end, item) {
        if may_be_used(unasked, least, top) {
            tops.push(top)?;
            bottoms.push(item)?;
        }
    }
    Ok(())
}

// Lists the kept items that lead up to topmost ones which may be those of nodes, and these.
fn list_tops(
    recce: &Recce<'_>,
    unasked: &ItemSet,
    end: u32,
    least: u32,
    tops: &mut Vec<Item>,
    bottoms: &mut Vec<Item>,
) -> Result<(), AllocError>
    requires is { IsRecognizer recce.now }
    requires end { end ≤ earleme_of recce.now }
    ensures { OnOk result (AreTops recce.now unasked.now.keys end least tops.new.items bottoms.new.items) }
{
    tops.clear();
    bottoms.clear();
    let set = recce.whole(end);
    for k in 0..set.len() {
        put_top(recce, unasked, end, least, set.at(k), tops, bottoms)?;
    }
    Ok(())
}

/// Lists the hidden items below topmost ones that are asked for and begin at `least` or after it.
pub fn list_needed<L: Ledger>(
    alloc: Global,
    recce: &Recce<'_>,
    w: &Written,
    ranking: Ranking,
    keys: &NodeKeys,
    end: u32,
    least: u32,
    tops: &mut Vec<Item>,
    bottoms: &mut Vec<Item>,
    steps: &mut Steps<L>,
) -> Result<Vec<Item>, AllocError>
    requires is { IsRecognizer recce.now }
    requires flat { IsFlatOf recce.now.flat w.now }
    requires end { end ≤ earleme_of recce.now }
    ensures exact { IfOk result (λ items.
        IsListOf (IsBelowAsked w.now ranking recce.now keys.now.keys end least) items.items) }
    ensures tops { IfOk result (λ items. IsListOf (StandsBelowOf recce.now end tops.new.items) items.items) }
    ensures all { IfOk result (λ items. steps.new ≡ steps.old + length items.items) }
    ensures counted { RisesWithin (IsBelowAsked w.now ranking recce.now keys.now.keys end least)
        steps.old steps.new }
{
    tops.clear();
    bottoms.clear();
    if !recce.may_hide(end, least) {
        return Ok(Vec::new(alloc));
    }
    let unasked = list_unasked(alloc, recce, w, ranking, keys, end, least)?;
    list_tops(recce, &unasked, end, least, tops, bottoms)?;
    drop(unasked);
    recce.below(alloc, end, tops, bottoms, steps)
}

// Puts items into a set.
fn put_all(items: &[Item], set: &mut ItemSet) -> Result<(), AllocFailed<Item>>
    ensures { OnOk result ((x : TheItem) → Contains set.new.keys x ↔
        (Contains set.old.keys x ⊎ Contains items.now x)) }
{
    for item in items {
        set.insert(*item)?;
    }
    Ok(())
}

// Puts an item, if it begins at `least` or after it.
fn put_late(item: Item, least: u32, items: &mut Vec<Item>) -> Result<(), AllocError>
    ensures { OnOk result ((x : TheItem) → Contains items.new.items x ↔
        (Contains items.old.items x ⊎ ((x ≡ item) × (least ≤ item.origin)))) }
{
    if least <= item.origin {
        items.push(item)?;
    }
    Ok(())
}

// Puts those of some items that begin at `least` or after it.
fn put_all_late(given: &[Item], least: u32, items: &mut Vec<Item>) -> Result<(), AllocError>
    ensures { OnOk result ((x : TheItem) → Contains items.new.items x ↔
        (Contains items.old.items x ⊎ (Contains given.now x × (least ≤ x.origin)))) }
{
    for item in given {
        put_late(*item, least, items)?;
    }
    Ok(())
}

// Lists such items, where those below some topmost ones were brought back before: these are not asked for again.
fn list_rest<L: Ledger>(
    alloc: Global,
    recce: &Recce<'_>,
    w: &Written,
    ranking: Ranking,
    keys: &NodeKeys,
    end: u32,
    least: u32,
    here: &GivenHere<'_>,
    tops: &mut Vec<Item>,
    bottoms: &mut Vec<Item>,
    steps: &mut Steps<L>,
) -> Result<Vec<Item>, AllocError>
    requires is { IsRecognizer recce.now }
    requires flat { IsFlatOf recce.now.flat w.now }
    requires end { end ≤ earleme_of recce.now }
    requires here { IsListOf (StandsBelowOf recce.now end here.now.tops.now) here.now.items.now }
    ensures hidden { IfOk result (λ items. (item : TheItem) → Contains items.items item → IsHiddenFrom recce.now end least item) }
    ensures all { IfOk result (λ items. (item : TheItem) →
        IsBelowAsked w.now ranking recce.now keys.now.keys end least item → Contains items.items item) }
    ensures counted { RisesWithin
        (IsAskedBeside w.now ranking recce.now keys.now.keys here.now.items.now end least)
        steps.old steps.new }
{
    let mut left_out = list_unasked(alloc, recce, w, ranking, keys, end, least)?;
    put_all(here.tops, &mut left_out)?;
    list_tops(recce, &left_out, end, least, tops, bottoms)?;
    drop(left_out);
    let mut items = recce.below(alloc, end, tops, bottoms, steps)?;
    put_all_late(here.items, least, &mut items)?;
    Ok(items)
}

/// Lists hidden items, all those below topmost ones that are asked for and begin at `least` or after it. Those that were brought back
/// before are not asked for again.
pub fn list_needed_after<L: Ledger>(
    alloc: Global,
    recce: &Recce<'_>,
    w: &Written,
    ranking: Ranking,
    keys: &NodeKeys,
    end: u32,
    least: u32,
    given: &Given,
    tops: &mut Vec<Item>,
    bottoms: &mut Vec<Item>,
    steps: &mut Steps<L>,
) -> Result<Vec<Item>, AllocError>
    requires is { IsRecognizer recce.now }
    requires flat { IsFlatOf recce.now.flat w.now }
    requires end { end ≤ earleme_of recce.now }
    requires given { AreBelowTops recce.now given.now }
    ensures hidden { IfOk result (λ items. (item : TheItem) → Contains items.items item → IsHiddenFrom recce.now end least item) }
    ensures all { IfOk result (λ items. (item : TheItem) →
        IsBelowAsked w.now ranking recce.now keys.now.keys end least item → Contains items.items item) }
    ensures counted { RisesWithin
        (IsAskedAnew w.now ranking recce.now keys.now.keys given.now end least)
        steps.old steps.new }
{
    match given.at(end) {
        None => list_needed(
            alloc, recce, w, ranking, keys, end, least, tops, bottoms, steps,
        ),
        Some(here) => list_rest(
            alloc, recce, w, ranking, keys, end, least, &here, tops, bottoms, steps,
        ),
    }
}
