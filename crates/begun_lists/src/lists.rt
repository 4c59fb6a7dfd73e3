//! Lists of what begins, which sets share. Each is made once, and found again by the symbols that are awaited.
ghost use Rattle.std.specs.Prelude.{◌≡◌, ◌≢◌, ℕ, ◌<◌, ◌⊎◌, List, [], length, IfSome, IfOk, Contains};
ghost use Rattle.std.specs.List.{AllPairs};
ghost use Rattle.item_rows.specs.Rows.{shared_at};
ghost use Rattle.item_rows.specs.Kept.{AreItems, IsAwaited};
ghost use Rattle.item_rows.specs.Heads.{AreHeads};
ghost use Rattle.begun_lists.specs.Begun.{AreBegun, IsNoted, AreLists, KeepsSets, SharesMore};
ghost use Rattle.begun_lists.specs.Met.{AreFound};
ghost use Rattle.begun_lists.specs.Tried.{TriesBegun, TriesList};

use crate::awaited::list_awaited;
use crate::begun::fill_begun;
use crate::met::{Met, find_met, new_met, note_met};
use grammar_core::Flat;
use indexmap::IndexMap;
use item_rows::{Heads, Rows};
use item_sets::ItemSet;
use recognizer_model::Item;
use slif_base::Steps;
use std::alloc::{AllocError, Global};
use std::sync::ledger::Ledger;

/// The numbers of the lists, by the symbols that are awaited, and what is used while one is made.
pub struct Lists {
    pub numbers: IndexMap<Vec<u32>, u32>,
    pub met: Met,
    symbols: Vec<u32>,
    set: ItemSet,
    next: Vec<Item>,
}

impl Drop for Lists {
    fn drop(self) {
        let Lists {
            numbers: _,
            met: _,
            symbols: _,
            set: _,
            next: _,
        } = self;
    }
}

/// No list is made.
pub fn new_lists(alloc: Global) -> Lists
    ensures numbers { result.numbers.entries ≡ [] }
    ensures met { (result.met.lists ≡ []) × (result.met.numbers.items ≡ []) }
{
    Lists {
        numbers: IndexMap::new(alloc),
        met: new_met(alloc),
        symbols: Vec::new(alloc),
        set: ItemSet::new(alloc),
        next: Vec::new(alloc),
    }
}

// The number that is noted for symbols.
fn number_of(numbers: &IndexMap<Vec<u32>, u32>, symbols: &[u32]) -> Option<u32>
    ensures { IfSome result (IsNoted numbers.now.entries symbols.now) }
{
    numbers.get(symbols).copied()
}

// Notes the number of symbols.
fn note(
    numbers: &mut IndexMap<Vec<u32>, u32>,
    symbols: Vec<u32>,
    number: u32,
) -> Result<(), AllocError>
    ensures { (list : List ℕ) (n : ℕ) → IsNoted numbers.new.entries list n →
        IsNoted numbers.old.entries list n ⊎ ((list ≡ symbols.items) × (n ≡ number)) }
{
    numbers.insert(symbols, number)?;
    Ok(())
}

fn copy(symbols: &Vec<u32>) -> Result<Vec<u32>, AllocError>
    ensures { IfOk result (λ copy. copy.items ≡ symbols.now.items) }
{
    symbols.clone()
}

// Makes the list of what begins where the symbols are awaited.
fn make_list<L: Ledger>(
    flat: &Flat,
    heads: &Heads,
    rows: &mut Rows<'_>,
    lists: &mut Lists,
    steps: &mut Steps<L>,
) -> Result<u32, AllocError>
    requires heads { AreHeads flat.now heads.now }
    requires flat { rows.old.flat ≡ flat.now }
    requires once { AllPairs (λ x y. x ≢ y) lists.old.symbols.items }
    requires lists { AreLists flat.now rows.old.shared lists.old.numbers.entries }
    ensures kept { KeepsSets rows.old rows.new }
    ensures more { SharesMore rows.old.shared rows.new.shared }
    ensures met { lists.new.met ≡ lists.old.met }
    ensures lists { AreLists flat.now rows.new.shared lists.new.numbers.entries }
    ensures there { IfOk result (λ number. number < length rows.new.shared) }
    ensures begun { IfOk result (λ number. AreBegun flat.now (Contains lists.old.symbols.items)
        (shared_at rows.new.shared number)) }
    ensures tried { IfOk result (λ number. TriesBegun flat.now lists.old.symbols.items
        (shared_at rows.new.shared number) steps.old steps.new) }
{
    fill_begun(
        flat,
        heads,
        &lists.symbols,
        &mut lists.set,
        &mut lists.next,
        steps,
    )?;
    let number = rows.share(lists.set.as_slice())?;
    let symbols = copy(&lists.symbols)?;
    note(&mut lists.numbers, symbols, number)?;
    Ok(number)
}

// The same, where nothing is noted for such items.
fn find_by_symbols<L: Ledger>(
    flat: &Flat,
    heads: &Heads,
    rows: &mut Rows<'_>,
    lists: &mut Lists,
    items: &[Item],
    steps: &mut Steps<L>,
) -> Result<u32, AllocError>
    requires heads { AreHeads flat.now heads.now }
    requires flat { rows.old.flat ≡ flat.now }
    requires items { AreItems flat.now items.now }
    requires lists { AreLists flat.now rows.old.shared lists.old.numbers.entries }
    ensures kept { KeepsSets rows.old rows.new }
    ensures more { SharesMore rows.old.shared rows.new.shared }
    ensures met { lists.new.met ≡ lists.old.met }
    ensures lists { AreLists flat.now rows.new.shared lists.new.numbers.entries }
    ensures there { IfOk result (λ number. number < length rows.new.shared) }
    ensures begun { IfOk result (λ number. AreBegun flat.now (IsAwaited flat.now items.now)
        (shared_at rows.new.shared number)) }
    ensures tried { IfOk result (λ number. TriesList flat.now items.now
        (shared_at rows.new.shared number) steps.old steps.new) }
{
    list_awaited(flat, heads, items, &mut lists.symbols)?;
    if lists.symbols.is_empty() {
        return Ok(0);
    }
    match number_of(&lists.numbers, &lists.symbols) {
        Some(number) => Ok(number),
        None => make_list(flat, heads, rows, lists, steps),
    }
}

/// The number of the list of what begins where items wait. Each try to add an item to a list that is made is a step.
pub fn find_list<L: Ledger>(
    flat: &Flat,
    heads: &Heads,
    rows: &mut Rows<'_>,
    lists: &mut Lists,
    items: &[Item],
    steps: &mut Steps<L>,
) -> Result<u32, AllocError>
    requires heads { AreHeads flat.now heads.now }
    requires flat { rows.old.flat ≡ flat.now }
    requires items { AreItems flat.now items.now }
    requires lists { AreFound flat.now rows.old.shared lists.old }
    ensures kept { KeepsSets rows.old rows.new }
    ensures lists { AreFound flat.now rows.new.shared lists.new }
    ensures there { IfOk result (λ number. number < length rows.new.shared) }
    ensures begun { IfOk result (λ number. AreBegun flat.now (IsAwaited flat.now items.now)
        (shared_at rows.new.shared number)) }
    ensures tried { IfOk result (λ number. TriesList flat.now items.now
        (shared_at rows.new.shared number) steps.old steps.new) }
{
    if let Some(number) = find_met(&lists.met, items) {
        return Ok(number);
    }
    let number = find_by_symbols(flat, heads, rows, lists, items, steps)?;
    note_met(&mut lists.met, items, number);
    Ok(number)
}
