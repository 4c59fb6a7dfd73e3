//! The order of a row: by the symbol after the dot (the postdot symbol), whole items, which are completed ones, last, then by rule, dot and origin.
ghost use Rattle.std.specs.Prelude.{◌≡◌, ◌≢◌, ◌≤◌, ◌↔◌, ℕ, ◌<◌, Some, length, map, slice_get, slice_index_or, Contains, IfSome, IsNone, OnOk};
ghost use Rattle.std.specs.List.{AllPairs};
ghost use Rattle.recognizer_model.specs.declared.Item.{Item as TheItem};
ghost use Rattle.item_rows.specs.Order.{symbol_or_end, row_key as key_of, item_of, IsInOrder};

use grammar_core::Flat;
use recognizer_model::Item;
use std::alloc::{AllocError, AllocFailed, Global};

/// What whole items have in place of a symbol.
pub const PAST_SYMBOLS: u64 = 4_294_967_296;

/// What rows are sorted by.
#[derive(Clone, Copy, PartialEq, Eq, PartialOrd, Ord)]
pub struct RowKey {
    pub symbol: u64,
    pub rule: u32,
    pub dot: u32,
    pub origin: u32,
}

fn symbol_after(flat: &Flat, item: Item) -> u64
    ensures { result ≡ symbol_or_end flat.now item }
{
    match flat.part(item.rule, item.dot) {
        Some(symbol) => symbol as u64,
        None => PAST_SYMBOLS,
    }
}

fn row_key(flat: &Flat, item: Item) -> RowKey
    ensures { result ≡ key_of flat.now item }
{
    RowKey {
        symbol: symbol_after(flat, item),
        rule: item.rule,
        dot: item.dot,
        origin: item.origin,
    }
}

// Lists the keys of items.
fn list_keys(flat: &Flat, items: &[Item], keys: &mut Vec<RowKey>) -> Result<(), AllocFailed<RowKey>>
    ensures { OnOk result (keys.new.items ≡ map (key_of flat.now) items.now) }
{
    keys.clear();
    for item in items {
        keys.push(row_key(flat, *item))?;
    }
    Ok(())
}

// Lists the items of keys.
fn list_items(keys: &[RowKey], items: &mut Vec<Item>) -> Result<(), AllocFailed<Item>>
    ensures { OnOk result (items.new.items ≡ map item_of keys.now) }
{
    items.clear();
    for key in keys {
        items.push(Item {
            rule: key.rule,
            dot: key.dot,
            origin: key.origin,
        })?;
    }
    Ok(())
}

/// Lists items in the order of a row, in place of what it held.
pub fn list_sorted(
    alloc: Global,
    flat: &Flat,
    items: &[Item],
    row: &mut Vec<Item>,
) -> Result<(), AllocError>
    ensures order { OnOk result (IsInOrder flat.now row.new.items) }
    ensures same { OnOk result ((item : TheItem) →
        Contains row.new.items item ↔ Contains items.now item) }
    ensures once { OnOk result (AllPairs (λ x y. x ≢ y) items.now →
        AllPairs (λ x y. x ≢ y) row.new.items) }
    ensures length { OnOk result (length row.new.items ≡ length items.now) }
{
    let mut keys = Vec::new(alloc);
    list_keys(flat, items, &mut keys)?;
    keys.sort_unstable();
    list_items(&keys, row)?;
    Ok(())
}

/// How many items wait for a symbol of a lower number.
pub fn below(flat: &Flat, row: &[Item], symbol: u64) -> usize
    requires { IsInOrder flat.now row.now }
    ensures bound { result ≤ length row.now }
    ensures below { (k : ℕ) (d : TheItem) → k < result →
        symbol_or_end flat.now (slice_index_or row.now k d) < symbol }
    ensures above { (k : ℕ) (d : TheItem) → result ≤ k → k < length row.now →
        symbol ≤ symbol_or_end flat.now (slice_index_or row.now k d) }
{
    row.partition_point(|item| symbol_after(flat, *item) < symbol)
}

/// The number of an item.
pub fn number_of(flat: &Flat, row: &[Item], item: Item) -> Option<usize>
    requires { IsInOrder flat.now row.now }
    ensures some { IfSome result (λ k. slice_get row.now k ≡ Some item) }
    ensures none { IsNone result → ¬ Contains row.now item }
{
    row.binary_search_by_key(&row_key(flat, item), |item| row_key(flat, *item))
        .ok()
}
