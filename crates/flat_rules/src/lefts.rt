//! The rules of each left side, and which rules can stand in a tree.
ghost use Rattle.std.specs.Prelude.{◌≡◌, ℕ, ◌<◌, ◌↔◌, [], true, false, length, slice_index_or, IsTrue, IfOk, OnOk};
ghost use Rattle.grammar_model.specs.Grammar.{Slot, Plain, rule_at, lhs_of, child_slot, slot_count};
ghost use Rattle.grammar_model.specs.Analysis.{IsLive, IsProductive};
ghost use Rattle.slot_analysis.specs.Slots.{needed_of};
ghost use Rattle.recognizer_model.specs.FlatForm.{IsUsedSlot};
ghost use Rattle.flat_rules.specs.Tables.{rows_of, row_at, AreLefts, AreLive, HasAdded};

use grammar_check::{Checked, child_at};
use grammar_core::{SymbolId, Written};
use slot_analysis::needed_count;
use std::alloc::{AllocError, AllocFailed, Global};

fn empty_rows(alloc: Global, count: usize) -> Result<Vec<Vec<u32>>, AllocError>
    ensures length { IfOk result (λ rows. length rows.items ≡ count) }
    ensures empty { IfOk result (λ rows. (s : ℕ) → row_at (rows_of rows.items) s ≡ []) }
{
    let mut rows = Vec::new(alloc);
    for _row in 0..count {
        let row = Vec::new(alloc);
        rows.push(row)?;
    }
    Ok(rows)
}

fn add_to_row(rows: &mut Vec<Vec<u32>>, s: usize, rule: u32) -> Result<(), AllocFailed<u32>>
    requires { s < length rows.old.items }
    ensures { OnOk result (HasAdded (rows_of rows.old.items) (rows_of rows.new.items) s rule) }
{
    rows[s].push(rule)
}

/// The rules of each left side.
pub fn rules_by_left(alloc: Global, w: &Written) -> Result<Vec<Vec<u32>>, AllocError>
    ensures { IfOk result (λ rows. AreLefts w.now (rows_of rows.items)) }
{
    let mut rows = empty_rows(alloc, w.symbol_count())?;
    for i in 0..w.rule_count() {
        let left = w.lhs(i).0 as usize;
        add_to_row(&mut rows, left, i as u32)?;
    }
    Ok(rows)
}

/// Whether the slot stands in a tree of a start.
pub fn is_used(c: &Checked<'_>, symbol: u32, level: u32) -> bool
    requires { symbol < length c.now.names }
    ensures { IsTrue result ↔ IsUsedSlot c.now (record { symbol = symbol; level = level }) }
{
    c.slot_accessible(SymbolId(symbol), level) && c.slot_productive(SymbolId(symbol), level)
}

/// Whether the part has trees.
pub fn is_child_productive(c: &Checked<'_>, i: usize, k: usize) -> bool
    requires rule { i < length c.now.rules }
    requires part { k < slot_count (rule_at c.now i) }
    ensures { IsTrue result ↔ IsProductive c.now (child_slot (rule_at c.now i) k) }
{
    let w = c.written();
    w.known();
    let (symbol, level) = child_at(w, i, k);
    c.slot_productive(SymbolId(symbol), level)
}

// Whether the rule can stand in a tree.
fn is_live(c: &Checked<'_>, i: usize) -> bool
    requires { i < length c.now.rules }
    ensures { IsTrue result ↔ IsLive c.now (rule_at c.now i) }
{
    for k in 0..needed_count(c.written().rule(i)) {
        if !is_child_productive(c, i, k) {
            return false;
        }
    }
    true
}

/// Whether each rule can stand in a tree.
pub fn live_rules(alloc: Global, c: &Checked<'_>) -> Result<Vec<bool>, AllocError>
    ensures { IfOk result (λ live. AreLive c.now live.items) }
{
    let mut live = Vec::new(alloc);
    for i in 0..c.written().rule_count() {
        live.push(is_live(c, i))?;
    }
    Ok(live)
}
