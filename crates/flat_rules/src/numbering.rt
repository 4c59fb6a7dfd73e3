//! The symbols of a flat grammar, numbered.
ghost use Rattle.std.specs.Prelude.{◌≡◌, ◌≢◌, ℕ, ◌+◌, ◌<◌, ◌≤◌, Some, slice_get, ◌^◌, ◌++◌, [], not, ◌&&◌, length, map, filter, slice_index, Contains, IsTrue, ◌↔◌, IfOk, OnOk};
ghost use Rattle.std.specs.List.{AllPairs};
ghost use Rattle.grammar_model.specs.Grammar.{Slot, rule_at, level_of, slot_of};
ghost use Rattle.grammar_model.specs.Simple.{is_terminal, numbers};
ghost use Rattle.recognizer_model.specs.declared.flat.FlatSymbol.TheVariants.{Sequence, Top};
ghost use Rattle.flat_model.specs.Flatten.{Decided, makes_list};
ghost use Rattle.flat_rules.specs.Tables.{rows_of, AreLefts, AreLive, told_slot, slot_at, place_of, slots_of_terminals, slots_of_lefts, lists_to, number_in, AreNumbers};

use crate::lefts::is_used;
use grammar_check::Checked;
use grammar_core::Written;
use indexmap::IndexSet;
use std::alloc::{AllocError, AllocFailed, Global};
use std::marker::Model;

/// A symbol with a least level.
#[derive(Clone, Copy, PartialEq, Eq, Hash)]
pub struct SlotKey {
    pub symbol: u32,
    pub level: u32,
}

/// The symbols of a flat grammar before its tops. Their numbers are their places: slots, those of terminals first, and then lists.
#[derive(Drop)]
pub struct Symbols {
    slots: IndexSet<SlotKey>,
    lists: Vec<u32>,
    before: Vec<u32>,
}

impl Model for Symbols {
    ghost use Rattle.std.specs.Prelude.{map};
    ghost use Rattle.flat_rules.specs.Tables.{Numbering, told_slot};

    ghost Value = { Numbering };

    ghost view = { λ s. record {
      slots = map told_slot s.slots.keys;
      lists = s.lists.items;
      before = s.before.items;
    } };
}

/// Whether there are no rules.
pub fn has_none(row: &[u32]) -> bool
    ensures { IsTrue result ↔ (row.now ≡ []) }
{
    row.is_empty()
}

// Whether the symbol is a terminal in use.
fn is_used_terminal(c: &Checked<'_>, rows: &[Vec<u32>], s: u32) -> bool
    requires symbol { s < length c.now.names }
    requires rows { AreLefts c.now (rows_of rows.now) }
    ensures { (d : Decided c.now) → result ≡ (is_terminal c.now s && d.used (slot_of s)) }
{
    has_none(&rows[s as usize]) && is_used(c, s, 0)
}

fn list_terminals(
    c: &Checked<'_>,
    rows: &[Vec<u32>],
    slots: &mut Vec<SlotKey>,
) -> Result<(), AllocFailed<SlotKey>>
    requires { AreLefts c.now (rows_of rows.now) }
    ensures { OnOk result ((d : Decided c.now) →
        map told_slot slots.new.items ≡
        map told_slot slots.old.items ++ slots_of_terminals c.now d) }
{
    for s in 0..c.written().symbol_count() {
        let symbol = s as u32;
        if is_used_terminal(c, rows, symbol) {
            slots.push(SlotKey { symbol, level: 0 })?;
        }
    }
    Ok(())
}

// A bound of the levels of these rules.
fn room_of(w: &Written, row: &[u32]) -> u32
    requires { (i : ℕ) → Contains row.now i → i < length w.now.rules }
    ensures bound { (i : ℕ) → Contains row.now i → level_of (rule_at w.now i) < result }
    ensures none { row.now ≡ [] → result ≡ 0 }
{
    let mut room = 0;
    for i in row {
        room = room.max(w.rule(*i as usize).groups());
    }
    room
}

// The slots of a left side in use.
fn list_levels(
    c: &Checked<'_>,
    s: u32,
    room: u32,
    slots: &mut Vec<SlotKey>,
) -> Result<(), AllocFailed<SlotKey>>
    requires { s < length c.now.names }
    ensures { OnOk result ((d : Decided c.now) →
        map told_slot slots.new.items ≡
        map told_slot slots.old.items ++
        map (slot_at s) (filter (λ k. d.used (slot_at s k)) (numbers room))) }
{
    for level in 0..room {
        if is_used(c, s, level) {
            slots.push(SlotKey { symbol: s, level })?;
        }
    }
    Ok(())
}

fn list_lefts(
    c: &Checked<'_>,
    rows: &[Vec<u32>],
    slots: &mut Vec<SlotKey>,
) -> Result<(), AllocFailed<SlotKey>>
    requires { AreLefts c.now (rows_of rows.now) }
    ensures { OnOk result ((d : Decided c.now) →
        map told_slot slots.new.items ≡ map told_slot slots.old.items ++ slots_of_lefts c.now d) }
{
    let w = c.written();
    for s in 0..w.symbol_count() {
        let room = room_of(w, &rows[s]);
        list_levels(c, s as u32, room, slots)?;
    }
    Ok(())
}

// A set of keys that differ, in their order.
fn set_of(alloc: Global, keys: &[SlotKey]) -> Result<IndexSet<SlotKey>, AllocError>
    requires { AllPairs (λ x y. x ≢ y) keys.now }
    ensures { IfOk result (λ set. set.keys ≡ keys.now) }
{
    let mut set = IndexSet::new(alloc);
    for key in keys {
        set.insert(*key)?;
    }
    Ok(set)
}

// Whether the rule makes a list.
fn is_list(c: &Checked<'_>, live: &[bool], i: usize) -> bool
    requires rule { i < length c.now.rules }
    requires live { AreLive c.now live.now }
    ensures { (d : Decided c.now) → result ≡ makes_list c.now d (rule_at c.now i) }
{
    let w = c.written();
    w.rule(i).is_sequence() && live[i] && is_used(c, w.lhs(i).0, 0)
}

fn list_lists(
    c: &Checked<'_>,
    live: &[bool],
    lists: &mut Vec<u32>,
    before: &mut Vec<u32>,
) -> Result<(), AllocFailed<u32>>
    requires live { AreLive c.now live.now }
    requires no_lists { lists.old.items ≡ [] }
    requires none_before { before.old.items ≡ [] }
    ensures lists { OnOk result ((d : Decided c.now) →
        lists.new.items ≡ lists_to c.now d (length c.now.rules)) }
    ensures before { OnOk result ((d : Decided c.now) (i : ℕ) → i < length c.now.rules →
        slice_index before.new.items i ≡ length (lists_to c.now d i)) }
    ensures few { OnOk result ((i : ℕ) → i < length c.now.rules →
        slice_index before.new.items i ≤ length lists.new.items) }
    ensures sized { OnOk result (length before.new.items ≡ length c.now.rules) }
    ensures small { OnOk result (length lists.new.items ≤ length c.now.rules) }
{
    for i in 0..c.written().rule_count() {
        before.push(lists.len() as u32)?;
        if is_list(c, live, i) {
            lists.push(i as u32)?;
        }
    }
    Ok(())
}

/// The symbols of the flat grammar before its tops, numbered.
pub fn symbols_of(
    alloc: Global,
    c: &Checked<'_>,
    rows: &[Vec<u32>],
    live: &[bool],
) -> Result<Symbols, AllocError>
    requires rows { AreLefts c.now (rows_of rows.now) }
    requires live { AreLive c.now live.now }
    ensures { IfOk result (λ symbols. AreNumbers c.now symbols) }
{
    c.tested();
    c.few_accessible();
    c.written().known();
    let mut keys = Vec::new(alloc);
    list_terminals(c, rows, &mut keys)?;
    list_lefts(c, rows, &mut keys)?;
    let mut lists = Vec::new(alloc);
    let mut before = Vec::new(alloc);
    list_lists(c, live, &mut lists, &mut before)?;
    let slots = set_of(alloc, &keys)?;
    Ok(Symbols {
        slots,
        lists,
        before,
    })
}

impl Symbols {
    /// The number of a slot.
    pub fn slot_number(&self, symbol: u32, level: u32) -> u32
        requires { length self.now.slots < 2 ^ 32 }
        ensures { result ≡ place_of self.now.slots (slot_at symbol level) }
    {
        match self.slots.get_index_of(&SlotKey { symbol, level }) {
            Some(place) => place as u32,
            None => 0,
        }
    }

    /// How many slots there are.
    pub fn slot_count(&self) -> usize
        ensures { result ≡ length self.now.slots }
    {
        self.slots.len()
    }

    /// The slot at a place.
    pub fn slot(&self, place: usize) -> SlotKey
        requires { place < length self.now.slots }
        ensures { slice_get self.now.slots place ≡ Some (told_slot result) }
    {
        self.slots.as_slice()[place]
    }

    /// The rules that make lists.
    pub fn lists(&self) -> &[u32]
        ensures { result.now ≡ self.now.lists }
    {
        &self.lists
    }

    /// The number of a rule's list.
    pub fn list_number(&self, i: usize) -> u32
        requires rule { i < length self.now.before }
        requires small { length self.now.slots + slice_index self.now.before i < 2 ^ 32 }
        ensures { result ≡ number_in self.now (Sequence i) }
    {
        self.slots.len() as u32 + self.before[i]
    }

    /// The number of a start's top.
    pub fn top_number(&self, k: usize) -> u32
        requires { length self.now.slots + (length self.now.lists + k) < 2 ^ 32 }
        ensures { result ≡ number_in self.now (Top k) }
    {
        self.slots.len() as u32 + (self.lists.as_slice().len() as u32 + k as u32)
    }
}
