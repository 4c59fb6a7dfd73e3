//! The items of a set that are not kept and of which completions lead to some topmost ones.
ghost use Rattle.std.specs.Prelude.{◌≡◌, ◌<◌, ◌+◌, ◌++◌, ◌↔◌, ◌⊎◌, [], length, IfOk, IsTrue, OnOk, Contains};
ghost use Rattle.recognizer_model.specs.declared.Item.{Item as TheItem};
ghost use Rattle.recognizer_model.specs.Flat.{IsRule};
ghost use Rattle.recognizer_model.specs.Counts.{IsListOf};
ghost use Rattle.item_rows.specs.Kept.{HasRows};
ghost use Rattle.leo_items.specs.Closed.{Grows};
ghost use Rattle.leo_items.specs.Hidden.{IsSingleStep, IsBottomIn, IsBottomOf, IsBelowOf};
ghost use Rattle.leo_items.specs.Walked.{AreGathered, AddsStep, IsWalked};

use crate::hidden::single_step;
use grammar_core::Flat;
use item_rows::Rows;
use item_sets::{ItemSet, is_among};
use recognizer_model::Item;
use std::alloc::{AllocError, Global};

// So many topmost items, or kept ones, are gone through.
const FEW: usize = 16;

// Puts the items that are not there yet.
fn put_all(items: &[Item], set: &mut ItemSet) -> Result<(), AllocError>
    ensures { OnOk result (Grows set.old set.new items.now) }
{
    for item in items {
        set.insert(*item)?;
    }
    Ok(())
}

// A set of the topmost items and the kept ones, if they are more than few, or none.
fn gather(alloc: Global, tops: &[Item], bottoms: &[Item]) -> Result<ItemSet, AllocError>
    ensures { IfOk result (λ first. AreGathered first tops.now bottoms.now) }
{
    let mut first = ItemSet::new(alloc);
    if tops.len() <= FEW && bottoms.len() <= FEW {
        return Ok(first);
    }
    put_all(tops, &mut first)?;
    put_all(bottoms, &mut first)?;
    first.make_ready()?;
    Ok(first)
}

fn is_either(tops: &[Item], bottoms: &[Item], item: Item) -> bool
    ensures { IsTrue result ↔ (Contains tops.now item ⊎ Contains bottoms.now item) }
{
    is_among(tops, item) || is_among(bottoms, item)
}

// Whether an item is one of them.
fn is_first(tops: &[Item], bottoms: &[Item], first: &ItemSet, item: Item) -> bool
    requires { AreGathered first.now tops.now bottoms.now }
    ensures { IsTrue result ↔ (Contains tops.now item ⊎ Contains bottoms.now item) }
{
    if first.is_empty() {
        is_either(tops, bottoms, item)
    } else {
        first.contains(item)
    }
}

// Adds the single step that leads on from an item, if it is not one of them.
fn add_step(
    flat: &Flat,
    rows: &Rows<'_>,
    earleme: u32,
    tops: &[Item],
    bottoms: &[Item],
    first: &ItemSet,
    item: Item,
    below: &mut ItemSet,
) -> Result<(), AllocError>
    requires rows { HasRows flat.now rows.now }
    requires earleme { earleme < length rows.now.sets }
    requires first { AreGathered first.now tops.now bottoms.now }
    requires rule { IsRule flat.now item.rule }
    ensures { OnOk result (AddsStep (IsSingleStep flat.now rows.now.sets earleme 0 item)
        (tops.now ++ bottoms.now) below.old below.new) }
{
    let Some(step) = single_step(flat, rows, earleme, 0, item) else {
        return Ok(());
    };
    if is_first(tops, bottoms, first, step) {
        return Ok(());
    }
    below.insert(step)
}

// Adds the steps that lead on from the kept items.
fn add_first_steps(
    flat: &Flat,
    rows: &Rows<'_>,
    earleme: u32,
    tops: &[Item],
    bottoms: &[Item],
    first: &ItemSet,
    below: &mut ItemSet,
) -> Result<(), AllocError>
    requires rows { HasRows flat.now rows.now }
    requires earleme { earleme < length rows.now.sets }
    requires first { AreGathered first.now tops.now bottoms.now }
    requires walked { IsWalked flat.now rows.now.sets earleme (tops.now ++ bottoms.now) below.old
        (length tops.now) }
    ensures { OnOk result (IsWalked flat.now rows.now.sets earleme (tops.now ++ bottoms.now)
        below.new (length tops.now + length bottoms.now)) }
{
    for item in bottoms {
        add_step(flat, rows, earleme, tops, bottoms, first, *item, below)?;
    }
    Ok(())
}

// Adds the steps that lead on from those that were found.
fn add_later_steps(
    flat: &Flat,
    rows: &Rows<'_>,
    earleme: u32,
    tops: &[Item],
    bottoms: &[Item],
    first: &ItemSet,
    below: &mut ItemSet,
) -> Result<(), AllocError>
    requires rows { HasRows flat.now rows.now }
    requires earleme { earleme < length rows.now.sets }
    requires first { AreGathered first.now tops.now bottoms.now }
    requires walked { IsWalked flat.now rows.now.sets earleme (tops.now ++ bottoms.now) below.old
        (length tops.now + length bottoms.now) }
    ensures { OnOk result (IsWalked flat.now rows.now.sets earleme (tops.now ++ bottoms.now)
        below.new (length tops.now + length bottoms.now + length below.new)) }
{
    for k in 0..usize::MAX {
        let Some(item) = below.get(k) else {
            return Ok(());
        };
        add_step(flat, rows, earleme, tops, bottoms, first, item, below)?;
    }
    let _len = below.len();
    unreachable!()
}

/// The items of a set that are not kept and of which completions lead to one of some items in the end, by the kept ones of which they do.
pub fn list_below(
    alloc: Global,
    flat: &Flat,
    rows: &Rows<'_>,
    earleme: u32,
    tops: &[Item],
    bottoms: &[Item],
) -> Result<Vec<Item>, AllocError>
    requires rows { HasRows flat.now rows.now }
    requires earleme { earleme < length rows.now.sets }
    requires bottoms { (item : TheItem) →
        Contains bottoms.now item ↔ IsBottomOf flat.now rows.now.sets earleme tops.now item }
    requires tops { (top : TheItem) → Contains tops.now top →
        (item : TheItem) × IsBottomIn flat.now rows.now.sets earleme top item }
    ensures { IfOk result (λ items. IsListOf (IsBelowOf flat.now rows.now.sets earleme tops.now)
        items.items) }
{
    let first = gather(alloc, tops, bottoms)?;
    let mut below = ItemSet::new(alloc);
    add_first_steps(flat, rows, earleme, tops, bottoms, &first, &mut below)?;
    add_later_steps(flat, rows, earleme, tops, bottoms, &first, &mut below)?;
    drop(first);
    Ok(below.into_items())
}
