//! A set of items in the order of adding.
ghost use Rattle.std.specs.Prelude.{◌≡◌, ◌≢◌, ℕ, ◌<◌, ◌≤◌, ◌^◌, ◌==◌, ◌↔◌, ◌⊎◌, ◌++◌, ◌∷◌, [], length, slice_get, slice_index_or, IsTrue, IfSome, IfOk, OnOk, OnErr, Contains};
ghost use Rattle.std.specs.List.{AllPairs};
ghost use Rattle.recognizer_model.specs.declared.Item.{Item as TheItem};
ghost use Rattle.item_sets.specs.Adding.{Adds};
ghost use Rattle.item_sets.specs.Held.{place_of, HasFirst, AreMarked};

use crate::NearHasher;
use indexmap::IndexSet;
use recognizer_model::Item;
use std::alloc::{AllocError, AllocFailed, Global};
use std::hash::BuildHasherDefault;
use std::marker::Model;

type Table = IndexSet<Item, BuildHasherDefault<NearHasher>>;

// So many items are held in a list alone: to go through them is cheaper than to hash.
const FEW: usize = 48;

// From so many items on they are marked, at one of so many places each. Of more than many the table tells what is there.
const MARKED: usize = 12;

const PLACES: u64 = 4096;

const MANY: usize = 512;

/// Items in the order in which they were added, each once.
pub struct ItemSet {
    items: Vec<Item>,
    // has so many first ones: the others are put there before the next look-up among many
    table: Table,
    filled: usize,
    // no item begins before this place, so one that does is new
    least: u32,
    // by place, one more than the number of an item that has it, or none at all: an item whose place has 0 is new
    marks: Vec<u32>,
}

impl Model for ItemSet {
    ghost use Rattle.std.specs.Prelude.{List};
    ghost use Rattle.recognizer_model.specs.declared.Item.{Item as TheItem};
    ghost use Rattle.item_sets.specs.Held.{IsHeld, AreMarked};

    ghost Value = { List TheItem };

    ghost view = { λ s. s.items.items };

    ghost invariant = { λ s. IsHeld s.items.items s.table.keys s.filled s.least ×
        AreMarked s.marks.items s.items.items };
}

impl Drop for ItemSet {
    fn drop(self) {
        let ItemSet {
            items: _,
            table: _,
            filled: _,
            least: _,
            marks: _,
        } = self;
    }
}

#[inline(always)]
fn same(x: Item, y: Item) -> bool
    ensures { IsTrue result ↔ (x ≡ y) }
{
    x == y
}

/// Whether an item is among some others, which are gone through.
#[inline(always)]
pub fn is_among(items: &[Item], item: Item) -> bool
    ensures { IsTrue result ↔ Contains items.now item }
{
    for other in items {
        if same(*other, item) {
            return true;
        }
    }
    false
}

// Looks an item up.
fn is_in_table(table: &Table, item: Item) -> bool
    ensures { IsTrue result ↔ Contains table.now.keys item }
{
    table.contains(&item)
}

// Puts an item into the table.
fn put(table: &mut Table, item: Item) -> Result<(), AllocFailed<Item>>
    ensures ok { OnOk result ((x : TheItem) →
        Contains table.new.keys x ↔ (Contains table.old.keys x ⊎ (item ≡ x))) }
    ensures err { OnErr result (table.new.keys ≡ table.old.keys) }
{
    table.insert(item)?;
    Ok(())
}

// Puts the items after the first ones into the table, and tells how many it has then: all, or as many as there is memory for.
fn fill(table: &mut Table, items: &[Item], filled: usize) -> usize
    requires within { filled ≤ length items.now }
    requires first { HasFirst table.old.keys items.now filled }
    ensures within { result ≤ length items.now }
    ensures first { HasFirst table.new.keys items.now result }
{
    let mut count = filled;
    while count < items.len() {
        match put(table, items[count]) {
            Ok(()) => count += 1,
            Err(_refused) => return count,
        }
    }
    count
}

// Whether an item is in the table, or among those that are not put there yet.
fn is_held(table: &Table, items: &[Item], filled: usize, item: Item) -> bool
    requires within { filled ≤ length items.now }
    requires first { HasFirst table.now.keys items.now filled }
    ensures { IsTrue result ↔ Contains items.now item }
{
    is_in_table(table, item) || is_among(&items[filled..], item)
}

// The place of an item.
#[inline(always)]
fn place_of(item: Item) -> usize
    ensures { result ≡ place_of item }
{
    ((item.rule as u64 + item.dot as u64 * 619 + item.origin as u64 * 2011) % PLACES) as usize
}

// What is marked at a place.
#[inline(always)]
fn mark_at(marks: &[u32], place: usize) -> u32
    ensures { result ≡ slice_index_or marks.now place 1 }
{
    match marks.get(place) {
        Some(mark) => *mark,
        None => 1,
    }
}

// Marks an item of a number, if there are marks.
#[inline(always)]
fn mark(marks: &mut Vec<u32>, item: Item, number: usize)
    ensures here { 0 < slice_index_or marks.new.items (place_of item) 1 }
    ensures kept { (place : ℕ) → 0 < slice_index_or marks.old.items place 1 →
        0 < slice_index_or marks.new.items place 1 }
{
    if marks.is_empty() {
        return;
    }
    let place = place_of(item);
    if place < marks.len() {
        marks[place] = number.min(4_294_967_294) as u32 + 1;
    }
}

// Marks of items.
fn marks_of(alloc: Global, items: &[Item]) -> Result<Vec<u32>, AllocError>
    ensures { IfOk result (λ marks. AreMarked marks.items items.now) }
{
    let mut marks = Vec::new(alloc);
    marks.resize(PLACES as usize, 0)?;
    for number in 0..items.len() {
        mark(&mut marks, items[number], number);
    }
    Ok(marks)
}

// Takes the marks of items away.
#[inline(always)]
fn unmark(marks: &mut Vec<u32>, items: &[Item]) {
    if marks.is_empty() {
        return;
    }
    for item in items {
        let place = place_of(*item);
        if place < marks.len() {
            marks[place] = 0;
        }
    }
}

// Whether the item of a number is this one.
#[inline(always)]
fn is_at(items: &[Item], number: usize, item: Item) -> bool
    ensures { IsTrue result → Contains items.now item }
{
    match items.get(number) {
        Some(other) => same(*other, item),
        None => false,
    }
}

// Whether an item is there, if its mark tells it.
#[inline(always)]
fn by_mark(marks: &[u32], items: &[Item], item: Item) -> Option<bool>
    requires { AreMarked marks.now items.now }
    ensures { IfSome result (λ there. IsTrue there ↔ Contains items.now item) }
{
    let mark = mark_at(marks, place_of(item));
    if mark == 0 {
        Some(false)
    } else if is_at(items, mark as usize - 1, item) {
        Some(true)
    } else {
        None
    }
}

impl ItemSet {
    /// No items.
    pub fn new(alloc: Global) -> ItemSet
        ensures { result ≡ [] }
    {
        ItemSet {
            items: Vec::new(alloc),
            table: IndexSet::with_hasher(alloc, BuildHasherDefault::new()),
            filled: 0,
            least: u32::MAX,
            marks: Vec::new(alloc),
        }
    }

    /// How many there are.
    #[inline(always)]
    pub fn len(&self) -> usize
        ensures len { result ≡ length self.now }
        ensures small { result < 2 ^ 63 }
    {
        self.items.len()
    }

    /// Whether there are none.
    #[inline(always)]
    pub fn is_empty(&self) -> bool
        ensures { result ≡ (length self.now == 0) }
    {
        self.items.is_empty()
    }

    /// The item of that number.
    #[inline(always)]
    pub fn get(&self, k: usize) -> Option<Item>
        ensures item { result ≡ slice_get self.now k }
        ensures once { AllPairs (λ x y. x ≢ y) self.now }
    {
        self.items.get(k).copied()
    }

    /// All of them, in order.
    #[inline(always)]
    pub fn as_slice(&self) -> &[Item]
        ensures items { result.now ≡ self.now }
        ensures once { AllPairs (λ x y. x ≢ y) self.now }
    {
        self.items.as_slice()
    }

    /// The items alone.
    pub fn into_items(self) -> Vec<Item>
        ensures items { result.items ≡ self }
        ensures once { AllPairs (λ x y. x ≢ y) result.items }
    {
        let ItemSet {
            items,
            table: _,
            filled: _,
            least: _,
            marks: _,
        } = self;
        items
    }

    /// Whether an item is among them.
    #[inline(always)]
    pub fn contains(&self, item: Item) -> bool
        ensures { IsTrue result ↔ Contains self.now item }
    {
        match by_mark(&self.marks, &self.items, item) {
            Some(there) => there,
            None => self.is_found(item),
        }
    }

    // The same, where marks do not tell it.
    #[inline(always)]
    fn is_found(&self, item: Item) -> bool
        ensures { IsTrue result ↔ Contains self.now item }
    {
        if self.items.len() <= FEW {
            is_among(&self.items, item)
        } else {
            is_held(&self.table, &self.items, self.filled, item)
        }
    }

    /// Adds an item, if it is not there yet.
    #[inline(always)]
    pub fn insert(&mut self, item: Item) -> Result<(), AllocError>
        ensures ok { OnOk result (Adds self.old self.new item) }
        ensures err { OnErr result (self.new ≡ self.old) }
    {
        if item.origin < self.least {
            return self.push(item);
        }
        if self.marks.is_empty() || self.items.len() > MANY {
            return self.insert_unmarked(item);
        }
        match by_mark(&self.marks, &self.items, item) {
            Some(true) => Ok(()),
            Some(false) => self.push(item),
            None => self.insert_unmarked(item),
        }
    }

    // The same, where marks do not tell whether it is there.
    #[inline(always)]
    fn insert_unmarked(&mut self, item: Item) -> Result<(), AllocError>
        ensures ok { OnOk result (Adds self.old self.new item) }
        ensures err { OnErr result (self.new ≡ self.old) }
    {
        self.make_ready()?;
        if self.is_found(item) {
            return Ok(());
        }
        if self.items.len() == MARKED {
            self.make_marks();
        }
        self.push(item)
    }

    // Makes marks, if there are none and there is memory.
    fn make_marks(&mut self)
        ensures { self.new ≡ self.old }
    {
        if !self.marks.is_empty() {
            return;
        }
        if let Ok(marks) = marks_of(*self.items.allocator(), &self.items) {
            self.marks = marks;
        }
    }

    /// Makes ready for look-ups: until the next item is added, they do not go through many.
    #[inline(always)]
    pub fn make_ready(&mut self) -> Result<(), AllocError>
        ensures { self.new ≡ self.old }
    {
        if self.items.len() <= FEW {
            return Ok(());
        }
        self.fill_table()
    }

    // Puts all into the table.
    fn fill_table(&mut self) -> Result<(), AllocError>
        ensures { self.new ≡ self.old }
    {
        self.filled = fill(&mut self.table, &self.items, self.filled);
        if self.filled == self.items.len() {
            Ok(())
        } else {
            Err(AllocError)
        }
    }

    // Adds an item that is not there yet.
    #[inline(always)]
    fn push(&mut self, item: Item) -> Result<(), AllocError>
        requires { ¬ Contains self.old item }
        ensures ok { OnOk result (self.new ≡ self.old ++ item ∷ []) }
        ensures err { OnErr result (self.new ≡ self.old) }
    {
        let number = self.items.len();
        self.items.push(item)?;
        self.least = self.least.min(item.origin);
        mark(&mut self.marks, item, number);
        Ok(())
    }

    /// Lets all items go, and keeps their room.
    #[inline(always)]
    pub fn clear(&mut self)
        ensures { self.new ≡ [] }
    {
        unmark(&mut self.marks, &self.items);
        self.items.clear();
        self.least = u32::MAX;
        if self.filled == 0 {
            return;
        }
        self.table.clear();
        self.filled = 0;
    }
}
