//! The last place where an edge with a symbol and a length begins.
ghost use Rattle.std.specs.Prelude.{◌≡◌, ◌≢◌, ℕ, ◌+◌, ◌<◌, ◌≤◌, ◌⊎◌, false, Option, None, Some, length, nat_eq, slice_index_or, OnOk};
ghost use Rattle.grammar_model.specs.declared.limits.TheConstants.{LAST_PLACE};
ghost use Rattle.indexmap.specs.IndexMap.{get, spare};
ghost use Rattle.grammar_core.specs.Latest.{edge_key, HasRoom, is_listed, latest_at, place_of};

use crate::SymbolId;
use indexmap::IndexMap;
use std::alloc::{AllocError, Global};

// Symbols below this number are found in a list, for edges of length one.
const LISTED: u32 = 65_536;

/// For each symbol and length, the last place where an edge with them begins.
#[derive(Debug, Drop)]
pub struct LatestPlaces {
    // one more than the place, by symbol, for edges of length one; 0 for none
    ones: Vec<u32>,
    // the place, by the key of symbol and length, for all others
    others: IndexMap<u64, u32>,
}

impl LatestPlaces {
    /// No place for any.
    pub fn new(alloc: Global) -> LatestPlaces
        ensures { (symbol length : ℕ) → latest_at result symbol length ≡ None }
    {
        LatestPlaces {
            ones: Vec::new(alloc),
            others: IndexMap::new(alloc),
        }
    }

    /// Lets all places go, and keeps their room.
    pub fn clear(&mut self)
        ensures { (symbol length : ℕ) → latest_at self.new symbol length ≡ None }
    {
        self.ones.clear();
        self.others.clear();
    }

    /// The last place where an edge with that symbol and length begins.
    pub fn get(&self, t: SymbolId, length: u32) -> Option<u32>
        ensures { result ≡ latest_at self.now t length }
    {
        if is_listed(t, length) {
            place_of(one_at(&self.ones, t))
        } else {
            self.others.get(&edge_key(t, length)).copied()
        }
    }

    /// Makes room for that symbol and length.
    pub fn reserve(&mut self, t: SymbolId, length: u32) -> Result<(), AllocError>
        ensures same { (s m : ℕ) → latest_at self.new s m ≡ latest_at self.old s m }
        ensures room { OnOk result (HasRoom self.new t length) }
    {
        if is_listed(t, length) {
            lengthen(&mut self.ones, t.0 as usize)
        } else {
            self.others.reserve(1)
        }
    }

    /// Notes the place of that symbol and length, for which there is room.
    pub fn put(&mut self, t: SymbolId, length: u32, at: u32)
        requires room { HasRoom self.old t length }
        requires place { at ≤ LAST_PLACE }
        ensures here { latest_at self.new t length ≡ Some at }
        ensures others { (s m : ℕ) → m < 4294967296 → (s ≢ t) ⊎ (m ≢ length) →
            latest_at self.new s m ≡ latest_at self.old s m }
    {
        if is_listed(t, length) {
            put_one(&mut self.ones, t, at);
        } else {
            put_other(&mut self.others, edge_key(t, length), at);
        }
    }
}

// Notes a place in the list.
fn put_one(ones: &mut [u32], t: SymbolId, at: u32)
    requires room { t < length ones.old }
    requires place { at ≤ LAST_PLACE }
    ensures here { slice_index_or ones.new t 0 ≡ at + 1 }
    ensures others { (s : ℕ) → s ≢ t → slice_index_or ones.new s 0 ≡ slice_index_or ones.old s 0 }
{
    ones[t.0 as usize] = at + 1;
}

// Notes a place under a key.
fn put_other(others: &mut IndexMap<u64, u32>, key: u64, at: u32)
    requires room { 1 ≤ spare others.old }
    ensures here { get nat_eq others.new key ≡ Some at }
    ensures others { (k : ℕ) → nat_eq key k ≡ false →
        get nat_eq others.new k ≡ get nat_eq others.old k }
{
    if others.insert(key, at).is_err() {
        unreachable!()
    }
}

// A number for each symbol and length.
fn edge_key(t: SymbolId, length: u32) -> u64
    ensures { result ≡ edge_key t length }
{
    4_294_967_296 * t.0 as u64 + length as u64
}

// Whether the edge is found in the list.
fn is_listed(t: SymbolId, length: u32) -> bool
    ensures { result ≡ is_listed t length }
{
    length == 1 && t.0 < LISTED
}

fn one_at(ones: &[u32], t: SymbolId) -> u32
    ensures { result ≡ slice_index_or ones.now t 0 }
{
    match ones.get(t.0 as usize) {
        Some(one) => *one,
        None => 0,
    }
}

fn place_of(one: u32) -> Option<u32>
    ensures { result ≡ place_of one }
{
    one.checked_sub(1)
}

// Makes zeros up to this number, as far as there are none.
fn lengthen(ones: &mut Vec<u32>, place: usize) -> Result<(), AllocError>
    requires { place < 4294967296 }
    ensures same { (x : ℕ) → slice_index_or ones.new.items x 0 ≡ slice_index_or ones.old.items x 0 }
    ensures long { OnOk result (place < length ones.new.items) }
{
    if place < ones.len() {
        return Ok(());
    }
    ones.resize(place + 1, 0)
}
