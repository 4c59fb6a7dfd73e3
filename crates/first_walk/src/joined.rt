//! Items that wait where parts begin, each with the number of a part that it waits for. Where many parts may be the last ones of many nodes,
//! those of a node are found by its item, without a look at the others.
ghost use Rattle.std.specs.Prelude.{◌≡◌, ℕ, true, false, ◌<◌, ◌≤◌, ◌↔◌, ◌⊎◌, length, OnOk, IfSome, IsNone, IsTrue, Contains, Some, slice_get};
ghost use Rattle.std.specs.List.Sorted.{IsStrictlySortedBy};
ghost use Rattle.recognizer_model.specs.Items.{after};
ghost use Rattle.earley_sets.specs.Recognizer.{earleme_of};
ghost use Rattle.forest_parts.specs.Lists.{between};
ghost use Rattle.forest_parts.specs.Parts.{part_at};
ghost use Rattle.first_walk.specs.declared.joined.Joined.{Joined as TheJoined};
ghost use Rattle.first_walk.specs.Joined.{joined_cmp, item_of_joined, before_item, IsFromItem, IsJoinedTo, AreJoined, HasOtherLength, IsFound};
ghost use Rattle.first_walk.specs.Place.{HavePlaces, HasNoMatch};

use earley_sets::Recce;
use forest_parts::Part;
use recognizer_model::Item;
use slif_base::number;
use std::alloc::AllocError;

/// An item that waits where a part begins, for its symbol. They go by their origins first, as a walk does.
#[derive(Clone, Copy, PartialEq, Eq, PartialOrd, Ord)]
pub struct Joined {
    pub origin: u32,
    pub rule: u32,
    pub dot: u32,
    pub part: u32,
}

/// The first part that may be the last one of a node, and whether another may that begins elsewhere.
#[derive(Clone, Copy)]
pub struct Found {
    pub first: usize,
    pub other: bool,
}

// Puts an item with a part.
fn put_one(item: Item, number: u32, joined: &mut Vec<Joined>) -> Result<(), AllocError>
    ensures { OnOk result ((j : TheJoined) → Contains joined.new.items j ↔
        (Contains joined.old.items j ⊎ ((j.part ≡ number) × (item_of_joined j ≡ item)))) }
{
    joined.push(Joined {
        origin: item.origin,
        rule: item.rule,
        dot: item.dot,
        part: number,
    })?;
    Ok(())
}

// Puts the items that wait for a part.
fn put_joined(
    recce: &Recce<'_>,
    part: Part,
    number: u32,
    joined: &mut Vec<Joined>,
) -> Result<(), AllocError>
    requires part { part.length ≤ part.end }
    requires end { part.end ≤ earleme_of recce.now }
    ensures { OnOk result ((j : TheJoined) → Contains joined.new.items j ↔
        (Contains joined.old.items j ⊎ ((j.part ≡ number) × IsJoinedTo recce.now part j))) }
{
    let waiting = recce.waiting(part.end - part.length, part.symbol);
    for k in 0..waiting.len() {
        put_one(waiting.at(k), number, joined)?;
    }
    Ok(())
}

// Sorts them, each once. Parts go by their lengths, so that origins mostly fall all along: such a run a stable sort takes as it is.
fn sort(joined: &mut Vec<Joined>) -> Result<(), AllocError>
    ensures sorted { OnOk result (IsStrictlySortedBy joined_cmp joined.new.items) }
    ensures same { OnOk result ((j : TheJoined) → Contains joined.new.items j ↔ Contains joined.old.items j) }
{
    joined.sort()?;
    joined.dedup();
    Ok(())
}

/// Lists the items that wait where the parts begin, in order.
pub fn list_joined(
    recce: &Recce<'_>,
    parts: &[Part],
    joined: &mut Vec<Joined>,
) -> Result<(), AllocError>
    requires { HavePlaces recce.now parts.now }
    ensures { OnOk result (AreJoined recce.now parts.now joined.new.items) }
{
    joined.clear();
    for k in 0..parts.len() {
        let at = number(k)?;
        put_joined(recce, parts[k], at, joined)?;
    }
    sort(joined)?;
    Ok(())
}

fn joined_between(joined: &[Joined], first: usize, past: usize) -> &[Joined]
    requires order { first ≤ past }
    requires bound { past ≤ length joined.now }
    ensures { result.now ≡ between first past joined.now }
{
    &joined[first..past]
}

// Whether its item stands before another.
#[inline(always)]
fn is_before(joined: Joined, item: Item) -> bool
    ensures { result ≡ before_item item joined }
{
    if joined.origin != item.origin {
        joined.origin < item.origin
    } else if joined.rule != item.rule {
        joined.rule < item.rule
    } else {
        joined.dot < item.dot
    }
}

#[inline(always)]
fn has_item(joined: Joined, item: Item) -> bool
    ensures { IsTrue result ↔ (item_of_joined joined ≡ item) }
{
    joined.origin == item.origin && joined.dot == item.dot && joined.rule == item.rule
}

// Whether those with items before another end at a place, which is not the end.
#[inline(always)]
fn is_first(joined: &[Joined], item: Item, first: usize) -> bool
    requires { IsStrictlySortedBy joined_cmp joined.now }
    ensures { IsTrue result → IsFromItem joined.now item first }
{
    if first >= joined.len() || is_before(joined[first], item) {
        return false;
    }
    first == 0 || is_before(joined[first - 1], item)
}

// How many have items that stand before another. A guess is compared first.
fn count_before(joined: &[Joined], item: Item, guess: usize) -> usize
    requires { IsStrictlySortedBy joined_cmp joined.now }
    ensures { IsFromItem joined.now item result }
{
    if is_first(joined, item, guess) {
        return guess;
    }
    joined.partition_point(|one| is_before(*one, item))
}

// Where those end that have an item, from one place on.
fn end_of_item(joined: &[Joined], first: usize, item: Item) -> usize
    requires { first ≤ length joined.now }
    ensures order { first ≤ result }
    ensures bound { result ≤ length joined.now }
    ensures same { (k : ℕ) (j : TheJoined) → first ≤ k → k < result → slice_get joined.now k ≡ Some j →
        item_of_joined j ≡ item }
    ensures other { (j : TheJoined) → slice_get joined.now result ≡ Some j → ¬ (item_of_joined j ≡ item) }
{
    for past in first..joined.len() {
        if !has_item(joined[past], item) {
            return past;
        }
    }
    joined.len()
}

// Those that have an item. Mostly they begin where the last ones end.
fn joined_of<'j>(joined: &'j [Joined], item: Item, past: &mut usize) -> &'j [Joined]
    requires { IsStrictlySortedBy joined_cmp joined.now }
    ensures sorted { IsStrictlySortedBy joined_cmp result.now }
    ensures exact { (j : TheJoined) →
        Contains result.now j ↔ (Contains joined.now j × (item_of_joined j ≡ item)) }
{
    let first = count_before(joined, item, *past);
    let end = end_of_item(joined, first, item);
    *past = end;
    joined_between(joined, first, end)
}

fn length_at(parts: &[Part], k: usize) -> u32
    requires { k < length parts.now }
    ensures { result ≡ (part_at parts.now k).length }
{
    parts[k].length
}

// Whether the part of one of them has another length than one part.
fn has_other_length(parts: &[Part], joined: &[Joined], first: usize) -> bool
    requires first { first < length parts.now }
    requires parts { (j : TheJoined) → Contains joined.now j → j.part < length parts.now }
    ensures { IsTrue result ↔ HasOtherLength parts.now joined.now first }
{
    let length = length_at(parts, first);
    for k in 0..joined.len() {
        if length_at(parts, joined[k].part as usize) != length {
            return true;
        }
    }
    false
}

/// The first part that an item waits for, and whether it waits for another that begins elsewhere.
pub fn find_joined(
    recce: &Recce<'_>,
    parts: &[Part],
    joined: &[Joined],
    past: &mut usize,
    symbol: u32,
    item: Item,
) -> Option<Found>
    requires joined { AreJoined recce.now parts.now joined.now }
    requires part { after recce.now.flat item ≡ Some symbol }
    ensures some { IfSome result (λ found. IsFound recce.now parts.now symbol item found) }
    ensures none { IsNone result → HasNoMatch recce.now parts.now symbol item }
{
    let mine = joined_of(joined, item, past);
    if mine.is_empty() {
        return None;
    }
    let first = mine[0].part as usize;
    let other = has_other_length(parts, mine, first);
    Some(Found { first, other })
}
