//! Marks of the terminals that a row waits for, its postdot terminals, so that none has to be looked for, and their list.
ghost use Rattle.std.specs.Prelude.{◌≡◌, ◌≢◌, ℕ, ◌+◌, ◌<◌, ◌≤◌, ◌↔◌, ◌⊎◌, length, slice_get, vec_capacity, Some, IfOk, IfSome, IsNone, Contains};
ghost use Rattle.std.specs.List.{AllPairs};
ghost use Rattle.recognizer_model.specs.declared.Item.{Item as TheItem};
ghost use Rattle.recognizer_model.specs.declared.flat.FlatSymbol.TheVariants.{Terminal};
ghost use Rattle.item_rows.specs.Rows.{row_at};
ghost use Rattle.expected_terminals.specs.Marks.{WaitsFor, HasRoom, AreAtMost, AreMarked, AreTerminalsOf};

use grammar_core::{Flat, FlatSymbol, SymbolId};
use item_rows::{Row, Rows};
use recognizer_model::Item;
use std::alloc::{AllocError, Global};

/// The terminals that the row waits for that was marked last, each once, and a mark for each symbol, by their numbers: the row
/// that was marked last with it, counted from 1. A symbol of a terminal is marked where the terminal is listed.
pub struct Marks {
    pub rows: Vec<u32>,
    pub listed: Vec<SymbolId>,
}

impl Drop for Marks {
    fn drop(self) {
        let Marks { rows: _, listed: _ } = self;
    }
}

// The terminal of a symbol.
fn terminal_of(flat: &Flat, symbol: u32) -> Option<SymbolId>
    requires { symbol < length flat.now.symbols }
    ensures some { IfSome result (λ t. slice_get flat.now.symbols symbol ≡ Some (Terminal t)) }
    ensures none { IsNone result → (t : ℕ) → slice_get flat.now.symbols symbol ≢ Some (Terminal t) }
{
    match flat.symbol(symbol) {
        FlatSymbol::Terminal(t) => Some(t),
        _ => None,
    }
}

/// No terminal is marked, and there is room for all.
pub fn new_marks(alloc: Global, flat: &Flat) -> Result<Marks, AllocError>
    ensures none { IfOk result (λ marks. AreAtMost 0 marks.rows.items) }
    ensures room { IfOk result (HasRoom flat.now) }
{
    let count = flat.symbol_count();
    let mut rows = Vec::new(alloc);
    rows.resize(count, 0)?;
    let listed = Vec::with_capacity(alloc, count)?;
    Ok(Marks { rows, listed })
}

/// Takes all marks away.
pub fn take_marks(marks: &mut Marks)
    ensures none { AreAtMost 0 marks.new.rows.items }
    ensures same { (length marks.new.rows.items ≡ length marks.old.rows.items) ×
        (marks.new.listed ≡ marks.old.listed) }
{
    for t in 0..marks.rows.len() {
        marks.rows[t] = 0;
    }
}

// Marks the symbol of a terminal, and lists the terminal, unless that is done.
fn put_mark(flat: &Flat, symbol: u32, t: SymbolId, mark: u32, marks: &mut Marks)
    requires symbol { slice_get flat.now.symbols symbol ≡ Some (Terminal t) }
    requires room { HasRoom flat.now marks.old }
    requires marked { AreMarked flat.now mark marks.old.rows.items marks.old.listed.items }
    ensures room { HasRoom flat.now marks.new }
    ensures marked { AreMarked flat.now mark marks.new.rows.items marks.new.listed.items }
    ensures listed { (s : ℕ) →
        Contains marks.new.listed.items s ↔ (Contains marks.old.listed.items s ⊎ (t ≡ s)) }
{
    flat.known();
    let place = symbol as usize;
    if marks.rows[place] != mark {
        marks.rows[place] = mark;
        marks.listed.push_reserved(t);
    }
}

// Marks and lists the terminal that an item waits for.
fn mark_item(flat: &Flat, item: Item, mark: u32, marks: &mut Marks)
    requires room { HasRoom flat.now marks.old }
    requires marked { AreMarked flat.now mark marks.old.rows.items marks.old.listed.items }
    ensures room { HasRoom flat.now marks.new }
    ensures marked { AreMarked flat.now mark marks.new.rows.items marks.new.listed.items }
    ensures listed { (t : ℕ) →
        Contains marks.new.listed.items t ↔
        (Contains marks.old.listed.items t ⊎ WaitsFor flat.now item t) }
{
    flat.known();
    if let Some(symbol) = flat.part(item.rule, item.dot) {
        if let Some(t) = terminal_of(flat, symbol) {
            put_mark(flat, symbol, t, mark, marks);
        }
    }
}

// Marks and lists the terminals that items wait for.
fn mark_items(flat: &Flat, items: &Row<'_>, mark: u32, marks: &mut Marks)
    requires room { HasRoom flat.now marks.old }
    requires older { (x m : ℕ) → slice_get marks.old.rows.items x ≡ Some m → m < mark }
    ensures room { HasRoom flat.now marks.new }
    ensures marked { AreMarked flat.now mark marks.new.rows.items marks.new.listed.items }
    ensures listed { (t : ℕ) →
        Contains marks.new.listed.items t ↔
        ((item : TheItem) × Contains items.now item × WaitsFor flat.now item t) }
{
    marks.listed.clear();
    for k in 0..items.len() {
        mark_item(flat, items.at(k), mark, marks);
    }
}

// Puts different terminals in order.
fn sort(terminals: &mut Vec<SymbolId>)
    requires { AllPairs (λ s t. s ≢ t) terminals.old.items }
    ensures order { AllPairs (λ s t. s < t) terminals.new.items }
    ensures same { (t : ℕ) → Contains terminals.new.items t ↔ Contains terminals.old.items t }
    ensures capacity { vec_capacity terminals.new ≡ vec_capacity terminals.old }
{
    terminals.sort_unstable();
}

/// Lists the terminals that a row waits for in order, in place of those of the row that was marked before, which does not stand after this one.
pub fn mark_row(flat: &Flat, rows: &Rows<'_>, j: usize, marks: &mut Marks)
    requires flat { rows.now.flat ≡ flat.now }
    requires place { j < length rows.now.sets }
    requires few { j < 4294967295 }
    requires room { HasRoom flat.now marks.old }
    requires older { AreAtMost j marks.old.rows.items }
    ensures room { HasRoom flat.now marks.new }
    ensures most { AreAtMost (j + 1) marks.new.rows.items }
    ensures listed { AreTerminalsOf flat.now (row_at rows.now.sets j) marks.new.listed.items }
{
    let items = rows.scanned(j);
    mark_items(flat, &items, j as u32 + 1, marks);
    sort(&mut marks.listed);
}
