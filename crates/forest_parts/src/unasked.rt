//! The items of a place that no node can ask for, as the nodes tell that were met so far.
ghost use Rattle.std.specs.Prelude.{◌≡◌, ℕ, ◌≤◌, ◌↔◌, ◌⊎◌, IfOk, OnOk, IsTrue, Contains, Some};
ghost use Rattle.recognizer_model.specs.declared.Item.{Item as TheItem};
ghost use Rattle.recognizer_model.specs.Flat.{IsRule, lhs_of, IsNullable};
ghost use Rattle.recognizer_model.specs.FlatForm.{IsFlatOf};
ghost use Rattle.recognizer_model.specs.Items.{after, advanced as item_after, IsWhole};
ghost use Rattle.recognizer_model.specs.Below.{node_of};
ghost use Rattle.earley_sets.specs.Recognizer.{IsRecognizer, earleme_of, set_at};
ghost use Rattle.earley_sets.specs.Kept.{IsItem};
ghost use Rattle.earley_sets.specs.Below.{LeadsUp};
ghost use Rattle.forest_parts.specs.Unasked.{AreUnasked, IsAbove, IsOver, IsOverChosen, IsAfterNothing, IsAwaiting, Takes};
ghost use Rattle.forest_parts.specs.Unasked.{AreParted, Tells, IsAskedFor, IsTopmostFrom};

use crate::NodeKeys;
use crate::outranked::is_outranked;
use earley_sets::Recce;
use grammar_core::Written;
use grammar_model::Ranking;
use indexmap::IndexSet;
use leo_items::{NearHasher, advanced};
use recognizer_model::{Item, NodeKey};
use std::alloc::{AllocError, AllocFailed, Global};
use std::hash::BuildHasherDefault;

/// Items, of which those with near origins are looked up near each other.
pub type ItemSet = IndexSet<Item, BuildHasherDefault<NearHasher>>;

// Whether a node of an item was met.
fn is_met(keys: &NodeKeys, end: u32, item: Item) -> bool
    ensures { IsTrue result ↔ Contains keys.now.keys (node_of item end) }
{
    keys.contains(&NodeKey {
        rule: item.rule,
        dot: item.dot,
        origin: item.origin,
        end,
    })
}

// Puts the item of one part more, if that part may span nothing.
fn put_after_nothing(
    recce: &Recce<'_>,
    item: Item,
    symbol: u32,
    items: &mut ItemSet,
) -> Result<(), AllocFailed<Item>>
    requires rule { IsRule recce.now.flat item.rule }
    requires origin { item.origin ≤ earleme_of recce.now }
    requires part { after recce.now.flat item ≡ Some symbol }
    ensures { OnOk result (Takes recce.now (IsAfterNothing recce.now item) items.old.keys items.new.keys) }
{
    let flat = recce.flat();
    flat.known();
    if flat.nullable(symbol) {
        items.insert(advanced(item))?;
    }
    Ok(())
}

// Puts the items that wait for a whole one where it begins, with one part more.
fn put_awaiting(recce: &Recce<'_>, item: Item, items: &mut ItemSet) -> Result<(), AllocFailed<Item>>
    requires is { IsRecognizer recce.now }
    requires rule { IsRule recce.now.flat item.rule }
    requires origin { item.origin ≤ earleme_of recce.now }
    ensures { OnOk result (Takes recce.now (IsAwaiting recce.now item) items.old.keys items.new.keys) }
{
    let flat = recce.flat();
    flat.known();
    let waiting = recce.waiting(item.origin, flat.lhs(item.rule));
    for k in 0..waiting.len() {
        items.insert(advanced(waiting.at(k)))?;
    }
    Ok(())
}

// Puts what a whole item leads to: the topmost item, or those that wait for it.
fn put_over(
    recce: &Recce<'_>,
    end: u32,
    item: Item,
    items: &mut ItemSet,
) -> Result<(), AllocFailed<Item>>
    requires is { IsRecognizer recce.now }
    requires end { end ≤ earleme_of recce.now }
    requires rule { IsRule recce.now.flat item.rule }
    requires origin { item.origin ≤ earleme_of recce.now }
    ensures { OnOk result (Takes recce.now (IsOver recce.now end item) items.old.keys items.new.keys) }
{
    match recce.topmost(end, item) {
        Some(top) => {
            items.insert(top)?;
            Ok(())
        }
        None => put_awaiting(recce, item, items),
    }
}

// Puts what a whole item leads to, unless the ranking leaves it out.
fn put_chosen(
    recce: &Recce<'_>,
    w: &Written,
    ranking: Ranking,
    end: u32,
    item: Item,
    items: &mut ItemSet,
) -> Result<(), AllocFailed<Item>>
    requires is { IsRecognizer recce.now }
    requires flat { IsFlatOf recce.now.flat w.now }
    requires end { end ≤ earleme_of recce.now }
    requires rule { IsRule recce.now.flat item.rule }
    requires origin { item.origin ≤ earleme_of recce.now }
    ensures { OnOk result (Takes recce.now (IsOverChosen w.now ranking recce.now end item) items.old.keys items.new.keys) }
{
    if is_outranked(recce, w, ranking, end, item) {
        return Ok(());
    }
    put_over(recce, end, item, items)
}

// Puts the items of which one has a node where an item has one.
fn put_above(
    recce: &Recce<'_>,
    w: &Written,
    ranking: Ranking,
    end: u32,
    item: Item,
    items: &mut ItemSet,
) -> Result<(), AllocFailed<Item>>
    requires is { IsRecognizer recce.now }
    requires flat { IsFlatOf recce.now.flat w.now }
    requires end { end ≤ earleme_of recce.now }
    requires item { IsItem recce.now.flat item }
    requires origin { item.origin ≤ earleme_of recce.now }
    ensures { OnOk result (Takes recce.now (IsAbove w.now ranking recce.now end item) items.old.keys items.new.keys) }
{
    match recce.flat().part(item.rule, item.dot) {
        Some(symbol) => put_after_nothing(recce, item, symbol, items),
        None => put_chosen(recce, w, ranking, end, item, items),
    }
}

// Adds an item and all that stand above it, if no node is among them; else notes that the item may be asked for.
fn note_unasked(
    recce: &Recce<'_>,
    w: &Written,
    ranking: Ranking,
    keys: &NodeKeys,
    end: u32,
    item: Item,
    unasked: &mut ItemSet,
    asked: &mut ItemSet,
) -> Result<(), AllocFailed<Item>>
    requires is { IsRecognizer recce.now }
    requires flat { IsFlatOf recce.now.flat w.now }
    requires end { end ≤ earleme_of recce.now }
    requires item { IsItem recce.now.flat item }
    requires origin { item.origin ≤ earleme_of recce.now }
    requires parted { AreParted w.now ranking recce.now keys.now.keys end unasked.old.keys asked.old.keys }
    ensures { OnOk result (Tells w.now ranking recce.now keys.now.keys end (λ x. x ≡ item)
        unasked.old.keys asked.old.keys unasked.new.keys asked.new.keys) }
{
    let first = unasked.len();
    unasked.insert(item)?;
    for k in first..usize::MAX {
        let Some(next) = unasked.get_index(k).copied() else {
            return Ok(());
        };
        if is_met(keys, end, next) || asked.contains(&next) {
            unasked.truncate(first);
            asked.insert(item)?;
            return Ok(());
        }
        put_above(recce, w, ranking, end, next, unasked)?;
    }
    let _count = unasked.len();
    unreachable!()
}

// Looks at the topmost item that an item leads up to, if it begins at `least` or after it.
fn look_at_top(
    recce: &Recce<'_>,
    w: &Written,
    ranking: Ranking,
    keys: &NodeKeys,
    end: u32,
    least: u32,
    item: Item,
    unasked: &mut ItemSet,
    asked: &mut ItemSet,
) -> Result<(), AllocFailed<Item>>
    requires is { IsRecognizer recce.now }
    requires flat { IsFlatOf recce.now.flat w.now }
    requires end { end ≤ earleme_of recce.now }
    requires rule { IsRule recce.now.flat item.rule }
    requires parted { AreParted w.now ranking recce.now keys.now.keys end unasked.old.keys asked.old.keys }
    ensures { OnOk result (Tells w.now ranking recce.now keys.now.keys end
        (λ x. LeadsUp recce.now end item x × (least ≤ x.origin))
        unasked.old.keys asked.old.keys unasked.new.keys asked.new.keys) }
{
    if let Some(top) = recce.topmost(end, item) {
        if least <= top.origin && !asked.contains(&top) {
            note_unasked(recce, w, ranking, keys, end, top, unasked, asked)?;
        }
    }
    Ok(())
}

// Looks at all topmost items.
fn look_at_tops(
    recce: &Recce<'_>,
    w: &Written,
    ranking: Ranking,
    keys: &NodeKeys,
    end: u32,
    least: u32,
    unasked: &mut ItemSet,
    asked: &mut ItemSet,
) -> Result<(), AllocFailed<Item>>
    requires is { IsRecognizer recce.now }
    requires flat { IsFlatOf recce.now.flat w.now }
    requires end { end ≤ earleme_of recce.now }
    requires parted { AreParted w.now ranking recce.now keys.now.keys end unasked.old.keys asked.old.keys }
    ensures { OnOk result (Tells w.now ranking recce.now keys.now.keys end (IsTopmostFrom recce.now end least)
        unasked.old.keys asked.old.keys unasked.new.keys asked.new.keys) }
{
    let set = recce.whole(end);
    for k in 0..set.len() {
        look_at_top(
            recce,
            w,
            ranking,
            keys,
            end,
            least,
            set.at(k),
            unasked,
            asked,
        )?;
    }
    Ok(())
}

/// Items that no node asks for whose end is the place: all such topmost ones from `least` on are among them.
pub fn list_unasked(
    alloc: Global,
    recce: &Recce<'_>,
    w: &Written,
    ranking: Ranking,
    keys: &NodeKeys,
    end: u32,
    least: u32,
) -> Result<ItemSet, AllocError>
    requires is { IsRecognizer recce.now }
    requires flat { IsFlatOf recce.now.flat w.now }
    requires end { end ≤ earleme_of recce.now }
    ensures unasked { IfOk result (λ items. AreUnasked w.now ranking recce.now keys.now.keys end items.keys) }
    ensures asked { IfOk result (λ items. (top : TheItem) →
        IsTopmostFrom recce.now end least top →
        Contains items.keys top ⊎ IsAskedFor w.now ranking recce.now keys.now.keys end top) }
{
    let mut unasked = IndexSet::with_hasher(alloc, BuildHasherDefault::new());
    let mut asked = IndexSet::with_hasher(alloc, BuildHasherDefault::new());
    look_at_tops(
        recce,
        w,
        ranking,
        keys,
        end,
        least,
        &mut unasked,
        &mut asked,
    )?;
    drop(asked);
    Ok(unasked)
}
