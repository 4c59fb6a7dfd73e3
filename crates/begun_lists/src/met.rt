//! Items that waited at places so far, each with the number of the list of what begins there: where items of the same dotted rules wait
//! again, nothing is to be listed.
ghost use Rattle.std.specs.Prelude.{◌≡◌, ℕ, ◌<◌, [], List, length, slice_index_or, IfSome, IsTrue};
ghost use Rattle.jagged.specs.Rows.{row_at as list_at};
ghost use Rattle.recognizer_model.specs.declared.Item.{Item as TheItem};
ghost use Rattle.recognizer_model.specs.Flat.{FlatGrammar};
ghost use Rattle.item_rows.specs.Rows.{shared_at};
ghost use Rattle.item_rows.specs.Kept.{IsAwaited};
ghost use Rattle.begun_lists.specs.Begun.{AreBegun};
ghost use Rattle.begun_lists.specs.Met.{HaveSameRules, AreMet};

use jagged::Jagged;
use recognizer_model::Item;
use std::alloc::{AllocError, Global};

// There are so many places while few lists are noted, and later.
const FEW: usize = 64;

const PLACES: usize = 4096;

// So many lists of items are noted at most, and so many at most of this size.
const LISTS: usize = 16_384;

const ITEMS: usize = 1 << 18;

/// Lists of items, each with a number, and at each of some places one more than the last list that was noted there; 0 is none.
#[derive(Drop)]
pub struct Met {
    pub lists: Jagged<Item>,
    pub numbers: Vec<u32>,
    places: Vec<u32>,
}

/// Nothing is noted.
pub fn new_met(alloc: Global) -> Met
    ensures lists { result.lists ≡ [] }
    ensures numbers { result.numbers.items ≡ [] }
{
    Met {
        lists: Jagged::new(alloc),
        numbers: Vec::new(alloc),
        places: Vec::new(alloc),
    }
}

fn mixed(before: u32, item: Item) -> u32 {
    before
        .wrapping_mul(31)
        .wrapping_add(item.rule)
        .wrapping_mul(31)
        .wrapping_add(item.dot)
}

// A place for items: it is the same where the first and the last have the same dotted rules, and they are as many.
fn place_of(items: &[Item]) -> usize {
    let Some(first) = items.first() else {
        return 0;
    };
    let Some(last) = items.last() else {
        return 0;
    };
    let mix = mixed(mixed((items.len() % PLACES) as u32, *first), *last);
    (mix ^ (mix / 4096)) as usize % PLACES
}

fn is_same_rule(item: Item, other: Item) -> bool
    ensures { IsTrue result → (item.rule ≡ other.rule) × (item.dot ≡ other.dot) }
{
    item.rule == other.rule && item.dot == other.dot
}

// Whether items have the same dotted rules, one by one.
fn have_same_rules(items: &[Item], others: &[Item]) -> bool
    ensures { IsTrue result → HaveSameRules items.now others.now }
{
    if items.len() != others.len() {
        return false;
    }
    for k in 0..items.len() {
        if !is_same_rule(items[k], others[k]) {
            return false;
        }
    }
    true
}

// One less than the number at a place.
fn list_at_place(places: &[u32], place: usize) -> Option<u32> {
    match places.get(place & places.len().wrapping_sub(1)) {
        Some(after) => after.checked_sub(1),
        None => None,
    }
}

/// The number that is noted for items of the same dotted rules, if it is found at their place.
pub fn find_met(met: &Met, items: &[Item]) -> Option<u32>
    requires { length met.now.lists ≡ length met.now.numbers.items }
    ensures { IfSome result (λ number. (k : ℕ) × (k < length met.now.lists) ×
        HaveSameRules (list_at met.now.lists k) items.now ×
        (slice_index_or met.now.numbers.items k 0 ≡ number)) }
{
    let list = list_at_place(&met.places, place_of(items))? as usize;
    if list >= met.lists.len() {
        return None;
    }
    if have_same_rules(met.lists.row(list), items) {
        Some(met.numbers[list])
    } else {
        None
    }
}

// Notes a list with its number, or neither.
fn push_both(met: &mut Met, items: &[Item], number: u32) -> Result<(), AllocError>
    ensures { (g : FlatGrammar) (shared : List (List TheItem)) → AreMet g shared met.old.lists met.old.numbers.items →
        number < length shared → AreBegun g (IsAwaited g items.now) (shared_at shared number) →
        AreMet g shared met.new.lists met.new.numbers.items }
{
    met.numbers.reserve(1)?;
    met.lists.push(items)?;
    met.numbers.push_reserved(number);
    Ok(())
}

// Notes at a place that the last list stands there.
fn put_place(places: &mut Vec<u32>, place: usize, count: usize) {
    let size = if count < FEW / 2 { FEW } else { PLACES };
    if places.len() < size && places.resize(size, 0).is_err() {
        return;
    }
    let place = place & places.len().wrapping_sub(1);
    if place < places.len() && count < 4_294_967_296 {
        places[place] = count as u32;
    }
}

/// Notes the number for items, if few are noted, or short ones, and memory is there.
pub fn note_met(met: &mut Met, items: &[Item], number: u32)
    ensures { (g : FlatGrammar) (shared : List (List TheItem)) → AreMet g shared met.old.lists met.old.numbers.items →
        number < length shared → AreBegun g (IsAwaited g items.now) (shared_at shared number) →
        AreMet g shared met.new.lists met.new.numbers.items }
{
    let count = met.numbers.len();
    if count >= LISTS || count.saturating_mul(items.len()) > ITEMS {
        return;
    }
    if push_both(met, items, number).is_ok() {
        let count = met.numbers.len();
        put_place(&mut met.places, place_of(items), count);
    }
}
