//! The items of a set that are not kept.
ghost use Rattle.std.specs.Prelude.{◌≡◌, ℕ, ◌<◌, ◌≤◌, ◌+◌, ◌-◌, ◌++◌, ◌↔◌, List, length, drop, Some, None, Option, IfSome, IsNone, IsTrue, IfOk, OnOk, Contains, []};
ghost use Rattle.recognizer_model.specs.declared.Item.{Item as TheItem};
ghost use Rattle.recognizer_model.specs.Flat.{IsRule};
ghost use Rattle.recognizer_model.specs.Counts.{IsListOf};
ghost use Rattle.item_rows.specs.Kept.{AreItems, HasRows};
ghost use Rattle.leo_items.specs.ByRows.{IsMemo, AreNulled};
ghost use Rattle.leo_items.specs.Closed.{IsReached};
ghost use Rattle.leo_items.specs.Hidden.{IsFrom, IsSingleStep, NoneLeadsOn, IsHiddenIn, LeadsUpIn, StepsTwice, SomeStepsTwiceIn};

use crate::Memo;
use crate::chain::{find, pair_above, step_in};
use grammar_core::Flat;
use item_rows::{Row, Rows};
use item_sets::ItemSet;
use recognizer_model::Item;
use std::alloc::{AllocError, Global};

// Puts the items that begin at a place or after it.
fn put_from(items: &Row<'_>, from: u32, set: &mut ItemSet) -> Result<(), AllocError>
    requires { set.old ≡ [] }
    ensures { OnOk result ((item : TheItem) →
        Contains set.new item ↔ IsFrom items.now from item) }
{
    for k in 0..items.len() {
        let item = items.at(k);
        if from <= item.origin {
            set.insert(item)?;
        }
    }
    Ok(())
}

/// The single step that a whole item leads to, if it begins at a place or after it.
pub fn single_step(
    flat: &Flat,
    rows: &Rows<'_>,
    earleme: u32,
    from: u32,
    item: Item,
) -> Option<Item>
    requires rows { HasRows flat.now rows.now }
    requires earleme { earleme < length rows.now.sets }
    requires rule { IsRule flat.now item.rule }
    ensures some { IfSome result (λ step. IsSingleStep flat.now rows.now.sets earleme from item
        step) }
    ensures none { IsNone result → (step : TheItem) →
        ¬ IsSingleStep flat.now rows.now.sets earleme from item step }
{
    if item.origin >= earleme {
        return None;
    }
    let step = step_in(flat, rows, pair_above(flat, item))?;
    if from <= step.origin {
        Some(step)
    } else {
        None
    }
}

// Whether a single step leads on from an item, if it begins at a place or after it.
fn leads_on(flat: &Flat, rows: &Rows<'_>, earleme: u32, from: u32, item: Item) -> bool
    requires rows { HasRows flat.now rows.now }
    requires earleme { earleme < length rows.now.sets }
    requires rule { IsRule flat.now item.rule }
    ensures { ¬ IsTrue result → from ≤ item.origin → (step : TheItem) →
        ¬ IsSingleStep flat.now rows.now.sets earleme from item step }
{
    from <= item.origin && single_step(flat, rows, earleme, from, item).is_some()
}

// Whether single steps lead on from one of the items that begin at a place or after it.
fn some_leads_on(flat: &Flat, rows: &Rows<'_>, items: &Row<'_>, earleme: u32, from: u32) -> bool
    requires rows { HasRows flat.now rows.now }
    requires earleme { earleme < length rows.now.sets }
    requires items { AreItems flat.now items.now }
    ensures { ¬ IsTrue result → NoneLeadsOn flat.now rows.now.sets earleme from items.now }
{
    for k in 0..items.len() {
        if leads_on(flat, rows, earleme, from, items.at(k)) {
            return true;
        }
    }
    false
}

// Adds whatever single steps lead to.
fn add_steps(
    flat: &Flat,
    rows: &Rows<'_>,
    earleme: u32,
    from: u32,
    set: &mut ItemSet,
) -> Result<(), AllocError>
    requires rows { HasRows flat.now rows.now }
    requires earleme { earleme < length rows.now.sets }
    requires items { AreItems flat.now set.old }
    ensures begins { OnOk result ((more : List TheItem) × (set.new ≡ set.old ++ more)) }
    ensures closed { OnOk result ((item : TheItem) →
        Contains set.new item ↔
        IsReached (IsSingleStep flat.now rows.now.sets earleme from) set.old item) }
{
    for k in 0..usize::MAX {
        let Some(item) = set.get(k) else {
            return Ok(());
        };
        if let Some(step) = single_step(flat, rows, earleme, from, item) {
            set.insert(step)?;
        }
    }
    let _len = set.len();
    Ok(())
}

// Lists the items after the first ones.
fn list_behind(alloc: Global, items: &[Item], first: usize) -> Result<Vec<Item>, AllocError>
    requires { first ≤ length items.now }
    ensures { IfOk result (λ behind. behind.items ≡ drop first items.now) }
{
    let mut behind = Vec::new(alloc);
    behind.extend_from_slice(&items[first..])?;
    Ok(behind)
}

/// The items of a set that begin at a place or after it and are not kept.
pub fn list_hidden(
    alloc: Global,
    flat: &Flat,
    rows: &Rows<'_>,
    earleme: u32,
    from: u32,
) -> Result<Vec<Item>, AllocError>
    requires rows { HasRows flat.now rows.now }
    requires earleme { earleme < length rows.now.sets }
    ensures { IfOk result (λ items. IsListOf (IsHiddenIn flat.now rows.now.sets earleme from)
        items.items) }
{
    let whole = rows.whole(earleme as usize);
    if !some_leads_on(flat, rows, &whole, earleme, from) {
        return Ok(Vec::new(alloc));
    }
    let mut set = ItemSet::new(alloc);
    put_from(&whole, from, &mut set)?;
    let kept = set.len();
    add_steps(flat, rows, earleme, from, &mut set)?;
    let behind = list_behind(alloc, set.as_slice(), kept);
    drop(set);
    behind
}

/// Where completions of a whole item lead in the end, if one step alone leads on from it.
pub fn top_above(
    flat: &Flat,
    rows: &Rows<'_>,
    memo: &Memo,
    earleme: u32,
    item: Item,
) -> Option<Item>
    requires rows { HasRows flat.now rows.now }
    requires nulled { AreNulled flat.now rows.now.sets }
    requires memo { IsMemo flat.now rows.now.sets memo.now }
    requires earleme { earleme < length rows.now.sets }
    requires rule { IsRule flat.now item.rule }
    ensures some { IfSome result (λ top. LeadsUpIn flat.now rows.now.sets earleme item top) }
    ensures none { IsNone result → (step : TheItem) →
        ¬ IsSingleStep flat.now rows.now.sets earleme 0 item step }
{
    if item.origin >= earleme {
        return None;
    }
    let pair = pair_above(flat, item);
    if let Some(top) = memo.get(pair) {
        return Some(top);
    }
    let step = step_in(flat, rows, pair)?;
    Some(find(flat, rows, memo, pair, step).top)
}

// Whether two single steps lead on from an item, the first to one that begins at a place or after it.
fn steps_twice(flat: &Flat, rows: &Rows<'_>, earleme: u32, from: u32, item: Item) -> bool
    requires rows { HasRows flat.now rows.now }
    requires earleme { earleme < length rows.now.sets }
    requires rule { IsRule flat.now item.rule }
    ensures { IsTrue result ↔ StepsTwice flat.now rows.now.sets earleme from item }
{
    if item.origin < from {
        return false;
    }
    match single_step(flat, rows, earleme, from, item) {
        Some(step) => single_step(flat, rows, earleme, 0, step).is_some(),
        None => false,
    }
}

/// Whether two single steps lead on from a whole item of a set, the first to one that begins at a place or after it.
pub fn some_steps_twice(flat: &Flat, rows: &Rows<'_>, earleme: u32, from: u32) -> bool
    requires rows { HasRows flat.now rows.now }
    requires earleme { earleme < length rows.now.sets }
    ensures { IsTrue result ↔ SomeStepsTwiceIn flat.now rows.now.sets earleme from }
{
    let whole = rows.whole(earleme as usize);
    for k in 0..whole.len() {
        if steps_twice(flat, rows, earleme, from, whole.at(k)) {
            return true;
        }
    }
    false
}
