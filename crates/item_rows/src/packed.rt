//! Rows of two parts: items of their own, and the numbers of dotted rules that begin at the row's place.
ghost use Rattle.std.specs.Prelude.{◌≡◌, ◌≢◌, ℕ, List, ◌<◌, ◌≤◌, ◌-◌, ◌*◌, ◌/◌, ◌↔◌, [], length, map, take, drop, slice_index, slice_get, Some, IsTrue, OnOk, Contains};
ghost use Rattle.std.specs.List.{AllPairs};
ghost use Rattle.recognizer_model.specs.declared.Item.{Item as TheItem};
ghost use Rattle.recognizer_model.specs.Counts.{IsListOf};
ghost use Rattle.recognizer_model.specs.Items.{after, IsWhole};
ghost use Rattle.item_rows.specs.Kept.{AreItems, IsAwaited, WaitsForTerminal};
ghost use Rattle.kernels.specs.Slots.{Rises, placed_all, dotted_of, AreSlotted};
ghost use Rattle.item_rows.specs.Noted.{ArePlaces};
ghost use Rattle.shared_lists.specs.Counted.{IsCount};
ghost use Rattle.jagged.specs.Rows.{row_at as list_at};
ghost use Rattle.item_rows.specs.Dotted.{unpacked, IsPackedRow, AreDotted, IsRowOfParts, AreWithin, row_items};

use crate::dotted::{DottedRules, Span, begin, unpack};
use kernels::{KernelRef, ORIGINS, slot_of};
use recognizer_model::Item;
use shared_lists::{Places, SharedLists, count_while, count_while_from};
use std::alloc::{AllocError, AllocFailed};
use std::marker::Model;

/// Items in two parts, those that rows share after the others; each part by the symbol after the dot, whole items last, then by rule, dot and origin.
#[derive(Drop)]
pub struct Row<'r> {
    rules: &'r [Item],
    kernel: KernelRef<'r>,
    begun: &'r [u32],
    earleme: u32,
}

impl<'r> Model for Row<'r> {
    ghost use Rattle.std.specs.Prelude.{List};
    ghost use Rattle.recognizer_model.specs.declared.Item.{Item};
    ghost use Rattle.kernels.specs.Slots.{placed_all, AreSlotted};
    ghost use Rattle.item_rows.specs.Dotted.{row_items, IsRowOfParts};

    ghost Value = { List Item };

    ghost view = { λ r. row_items r.rules.now r.earleme
        (placed_all r.kernel.origins.now r.kernel.slotted.now) r.begun.now };

    ghost invariant = { λ r. AreSlotted r.kernel.origins.now r.kernel.slotted.now ×
        IsRowOfParts r.rules.now r.earleme
        (placed_all r.kernel.origins.now r.kernel.slotted.now) r.begun.now };
}

impl<'r> Row<'r> {
    /// How many items there are.
    pub fn len(&self) -> usize
        ensures { result ≡ length self.now }
    {
        self.kernel.slotted.len() + self.begun.len()
    }

    /// An item, by its number.
    pub fn at(&self, k: usize) -> Item
        requires { k < length self.now }
        ensures { slice_get self.now k ≡ Some result }
    {
        let own = self.kernel.slotted.len();
        if k < own {
            unpack(self.rules, self.kernel.origins, self.kernel.slotted[k])
        } else {
            begin(self.rules, self.begun[k - own], self.earleme)
        }
    }
}

/// A row of two parts.
pub fn row_of<'r>(
    rules: &'r [Item],
    kernel: KernelRef<'r>,
    begun: &'r [u32],
    earleme: u32,
) -> Row<'r>
    requires slotted { AreSlotted kernel.origins.now kernel.slotted.now }
    requires parts { IsRowOfParts rules.now earleme
        (placed_all kernel.origins.now kernel.slotted.now) begun.now }
    ensures { result ≡ row_items rules.now earleme
        (placed_all kernel.entry.origins.now kernel.entry.slotted.now) begun.now }
{
    Row {
        rules,
        kernel,
        begun,
        earleme,
    }
}

// Packs items, in place of what it held.
fn pack_all(
    dotted: &DottedRules<'_>,
    items: &[Item],
    packed: &mut Vec<u64>,
) -> Result<(), AllocFailed<u64>>
    requires { AreItems dotted.now.flat items.now }
    ensures items { OnOk result (map (unpacked dotted.now.rules) packed.new.items ≡ items.now) }
    ensures within { OnOk result ((n : ℕ) → Contains packed.new.items n →
        n / 4294967296 < length dotted.now.rules) }
{
    packed.clear();
    for item in items {
        match dotted.pack(*item) {
            Some(number) => packed.push(number)?,
            None => unreachable!(),
        }
    }
    Ok(())
}

/// Packs different items in the order of a row, in place of what it held.
pub fn pack_row(
    dotted: &DottedRules<'_>,
    items: &[Item],
    packed: &mut Vec<u64>,
) -> Result<(), AllocError>
    requires items { AreItems dotted.now.flat items.now }
    requires once { AllPairs (λ x y. x ≢ y) items.now }
    ensures row { OnOk result (IsPackedRow (length dotted.now.rules) packed.new.items) }
    ensures same { OnOk result (IsListOf (Contains items.now) (map (unpacked dotted.now.rules)
        packed.new.items)) }
{
    pack_all(dotted, items, packed)?;
    packed.sort_unstable();
    Ok(())
}

/// Lists the numbers of the dotted rules of packed items, in place of what it held.
pub fn list_dotted(packed: &[u64], numbers: &mut Vec<u32>) -> Result<(), AllocFailed<u32>>
    requires { (n : ℕ) → Contains packed.now n → n / 4294967296 < 4294967296 }
    ensures { OnOk result (numbers.new.items ≡ map (λ n. n / 4294967296) packed.now) }
{
    numbers.clear();
    for n in packed {
        numbers.push((*n / 4_294_967_296) as u32)?;
    }
    Ok(())
}

/// How many numbers are below a bound.
pub(crate) fn count_below(packed: &[u64], bound: u64) -> usize
    requires { Rises packed.now }
    ensures bound { result ≤ length packed.now }
    ensures below { (k : ℕ) → k < result → slice_index packed.now k < bound }
    ensures above { (k : ℕ) → result ≤ k → k < length packed.now →
        bound ≤ slice_index packed.now k }
{
    count_while(packed, |n| *n < bound)
}

// How many numbers are below a bound, where so many are.
fn count_below_from(packed: &[u64], start: usize, bound: u64) -> usize
    requires row { Rises packed.now }
    requires start { start ≤ length packed.now }
    requires below { (k : ℕ) → k < start → slice_index packed.now k < bound }
    ensures { IsCount packed.now bound result }
{
    count_while_from(packed, start, |n| *n < bound)
}

// The packed items whose dotted rules are of a span.
fn within_span(packed: &[u64], span: Span) -> &[u64]
    requires row { Rises packed.now }
    requires order { span.start ≤ span.end }
    ensures rises { Rises result.now }
    ensures exact { (n : ℕ) →
        Contains result.now n ↔
        (Contains packed.now n × (span.start ≤ n / 4294967296) × (n / 4294967296 < span.end)) }
{
    let low = first_of(span.start);
    let high = first_of(span.end);
    let start = count_below(packed, low);
    let end = count_below_from(packed, start, high);
    between(packed, start, end)
}

fn between<T>(items: &[T], start: usize, end: usize) -> &[T]
    requires order { start ≤ end }
    requires bound { end ≤ length items.now }
    ensures { result.now ≡ take (end - start) (drop start items.now) }
{
    &items[start..end]
}

/// The least number that an item with a dotted rule is packed into.
pub(crate) fn first_of(number: u32) -> u64
    ensures { result ≡ number * 4294967296 }
{
    number as u64 * 4_294_967_296
}

// The items of a row whose dotted rules are of a span.
fn narrowed<'r>(
    dotted: &'r DottedRules<'_>,
    kernel: KernelRef<'r>,
    lists: &'r SharedLists,
    earleme: u32,
    span: Span,
) -> Row<'r>
    requires slotted { AreSlotted kernel.origins.now kernel.slotted.now }
    requires there { kernel.begun < length lists.now }
    requires row { IsRowOfParts dotted.now.rules earleme
        (placed_all kernel.origins.now kernel.slotted.now) (list_at lists.now kernel.begun) }
    requires order { span.start ≤ span.end }
    ensures { (own others : List ℕ) ×
        AreWithin (placed_all kernel.entry.origins.now kernel.entry.slotted.now)
        (list_at lists.now kernel.entry.begun) span own others ×
        (result ≡ row_items dotted.now.rules earleme own others) }
{
    let own = KernelRef {
        slotted: within_span(kernel.slotted, span),
        ..kernel
    };
    let others = lists.part(kernel.begun as usize, span.start, span.end);
    row_of(dotted.rules(), own, others, earleme)
}

/// The items of a row that wait for a symbol.
pub fn waiting<'r>(
    dotted: &'r DottedRules<'_>,
    kernel: KernelRef<'r>,
    lists: &'r SharedLists,
    earleme: u32,
    symbol: u32,
) -> Row<'r>
    requires slotted { AreSlotted kernel.origins.now kernel.slotted.now }
    requires there { kernel.begun < length lists.now }
    requires row { IsRowOfParts dotted.now.rules earleme
        (placed_all kernel.origins.now kernel.slotted.now) (list_at lists.now kernel.begun) }
    ensures { IsListOf
        (λ item. Contains (row_items dotted.now.rules earleme
        (placed_all kernel.entry.origins.now kernel.entry.slotted.now)
        (list_at lists.now kernel.entry.begun)) item ×
        (after dotted.now.flat item ≡ Some symbol))
        result }
{
    dotted.known();
    narrowed(dotted, kernel, lists, earleme, dotted.span(symbol))
}

/// The items of a row that wait for a symbol, by the places where they stand.
pub fn at_places<'r>(
    dotted: &'r DottedRules<'_>,
    kernel: KernelRef<'r>,
    lists: &'r SharedLists,
    earleme: u32,
    places: Places,
) -> Row<'r>
    requires slotted { AreSlotted kernel.origins.now kernel.slotted.now }
    requires there { kernel.begun < length lists.now }
    requires row { IsRowOfParts dotted.now.rules earleme
        (placed_all kernel.origins.now kernel.slotted.now) (list_at lists.now kernel.begun) }
    requires places { (symbol : ℕ) × ArePlaces dotted.now.flat dotted.now.rules
        (dotted_of kernel.slotted.now) (list_at lists.now kernel.begun) symbol places }
    ensures { (symbol : ℕ) → ArePlaces dotted.now.flat dotted.now.rules
        (dotted_of kernel.entry.slotted.now) (list_at lists.now kernel.entry.begun) symbol places →
        IsListOf
        (λ item. Contains (row_items dotted.now.rules earleme
        (placed_all kernel.entry.origins.now kernel.entry.slotted.now)
        (list_at lists.now kernel.entry.begun)) item ×
        (after dotted.now.flat item ≡ Some symbol))
        result }
{
    dotted.known();
    let own = KernelRef {
        slotted: between(
            kernel.slotted,
            places.own_start as usize,
            places.own_end as usize,
        ),
        ..kernel
    };
    let others = between(
        lists.list(kernel.begun as usize),
        places.begun_start as usize,
        places.begun_end as usize,
    );
    row_of(dotted.rules(), own, others, earleme)
}

/// The items of a row with the dot at the end.
pub fn whole<'r>(
    dotted: &'r DottedRules<'_>,
    kernel: KernelRef<'r>,
    lists: &'r SharedLists,
    earleme: u32,
) -> Row<'r>
    requires slotted { AreSlotted kernel.origins.now kernel.slotted.now }
    requires there { kernel.begun < length lists.now }
    requires row { IsRowOfParts dotted.now.rules earleme
        (placed_all kernel.origins.now kernel.slotted.now) (list_at lists.now kernel.begun) }
    ensures { IsListOf
        (λ item. Contains (row_items dotted.now.rules earleme
        (placed_all kernel.entry.origins.now kernel.entry.slotted.now)
        (list_at lists.now kernel.entry.begun)) item ×
        IsWhole dotted.now.flat item)
        result }
{
    dotted.known();
    narrowed(dotted, kernel, lists, earleme, dotted.whole())
}

/// The items of a row that wait for terminals.
pub fn scanned<'r>(
    dotted: &'r DottedRules<'_>,
    kernel: KernelRef<'r>,
    lists: &'r SharedLists,
    earleme: u32,
) -> Row<'r>
    requires slotted { AreSlotted kernel.origins.now kernel.slotted.now }
    requires there { kernel.begun < length lists.now }
    requires row { IsRowOfParts dotted.now.rules earleme
        (placed_all kernel.origins.now kernel.slotted.now) (list_at lists.now kernel.begun) }
    ensures { IsListOf
        (λ item. Contains (row_items dotted.now.rules earleme
        (placed_all kernel.entry.origins.now kernel.entry.slotted.now)
        (list_at lists.now kernel.entry.begun)) item ×
        WaitsForTerminal dotted.now.flat item)
        result }
{
    dotted.known();
    narrowed(dotted, kernel, lists, earleme, dotted.scanned())
}

/// Whether an item of a row's own waits for a terminal.
pub fn has_scanned(dotted: &DottedRules<'_>, kernel: KernelRef<'_>) -> bool
    requires slotted { AreSlotted kernel.origins.now kernel.slotted.now }
    requires row { IsPackedRow (length dotted.now.rules)
        (placed_all kernel.origins.now kernel.slotted.now) }
    ensures { IsTrue result ↔ ((item : TheItem) × Contains (map (unpacked dotted.now.rules)
        (placed_all kernel.entry.origins.now kernel.entry.slotted.now)) item ×
        WaitsForTerminal dotted.now.flat item) }
{
    !within_span(kernel.slotted, dotted.scanned()).is_empty()
}

fn has_slotted(slotted: &[u64], number: u64) -> bool
    requires { Rises slotted.now }
    ensures { IsTrue result ↔ Contains slotted.now number }
{
    slotted.binary_search(&number).is_ok()
}

// Whether a packed item is one of a kernel.
fn has_own(kernel: KernelRef<'_>, number: u64) -> bool
    requires { AreSlotted kernel.origins.now kernel.slotted.now }
    ensures { IsTrue result ↔
        Contains (placed_all kernel.entry.origins.now kernel.entry.slotted.now) number }
{
    match slot_of(kernel.origins, (number % ORIGINS) as u32) {
        Some(slot) => has_slotted(kernel.slotted, number / ORIGINS * ORIGINS + slot as u64),
        None => false,
    }
}

fn has_dotted(begun: &[u32], number: u32) -> bool
    requires { Rises begun.now }
    ensures { IsTrue result ↔ Contains begun.now number }
{
    begun.binary_search(&number).is_ok()
}

/// Whether an item is in a row.
pub fn contains(
    dotted: &DottedRules<'_>,
    kernel: KernelRef<'_>,
    begun: &[u32],
    earleme: u32,
    item: Item,
) -> bool
    requires slotted { AreSlotted kernel.origins.now kernel.slotted.now }
    requires row { IsRowOfParts dotted.now.rules earleme
        (placed_all kernel.origins.now kernel.slotted.now) begun.now }
    ensures { IsTrue result ↔
        Contains (row_items dotted.now.rules earleme
        (placed_all kernel.entry.origins.now kernel.entry.slotted.now) begun.now) item }
{
    dotted.known();
    match dotted.pack(item) {
        Some(number) => {
            has_own(kernel, number)
                || item.origin == earleme && has_dotted(begun, (number / ORIGINS) as u32)
        }
        None => false,
    }
}
