//! The symbols with rules that items wait for: the postdot symbols that predict something.
ghost use Rattle.std.specs.Prelude.{◌≡◌, ◌≢◌, ℕ, ◌↔◌, Some, None, IfSome, IsNone, OnOk, Contains};
ghost use Rattle.std.specs.List.{AllPairs};
ghost use Rattle.recognizer_model.specs.Items.{after};
ghost use Rattle.item_rows.specs.Kept.{IsItem, AreItems};
ghost use Rattle.item_rows.specs.Heads.{AreHeads};
ghost use Rattle.begun_lists.specs.Begun.{HasRule, AreAwaited};

use crate::skipping::next_symbol;
use grammar_core::Flat;
use item_rows::{Heads, rules_of};
use recognizer_model::Item;
use std::alloc::AllocFailed;

// The symbol that an item waits for, if it has rules.
fn awaited(flat: &Flat, heads: &Heads, item: Item) -> Option<u32>
    requires heads { AreHeads flat.now heads.now }
    requires item { IsItem flat.now item }
    ensures some { IfSome result (λ x. (after flat.now item ≡ Some x) × HasRule flat.now x) }
    ensures none { IsNone result → (x : ℕ) → after flat.now item ≡ Some x → ¬ HasRule flat.now x }
{
    let symbol = next_symbol(flat, item)?;
    let rules = rules_of(flat, heads, symbol);
    if rules.start < rules.end {
        Some(symbol)
    } else {
        None
    }
}

// Sorts symbols, each once.
fn sort(symbols: &mut Vec<u32>)
    ensures once { AllPairs (λ x y. x ≢ y) symbols.new.items }
    ensures same { (x : ℕ) → Contains symbols.new.items x ↔ Contains symbols.old.items x }
{
    symbols.sort_unstable();
    symbols.dedup();
}

/// Lists the symbols in order, each once, in place of what it held.
pub fn list_awaited(
    flat: &Flat,
    heads: &Heads,
    items: &[Item],
    symbols: &mut Vec<u32>,
) -> Result<(), AllocFailed<u32>>
    requires heads { AreHeads flat.now heads.now }
    requires items { AreItems flat.now items.now }
    ensures once { OnOk result (AllPairs (λ x y. x ≢ y) symbols.new.items) }
    ensures exact { OnOk result (AreAwaited flat.now items.now symbols.new.items) }
{
    symbols.clear();
    for item in items {
        if let Some(symbol) = awaited(flat, heads, *item) {
            symbols.push(symbol)?;
        }
    }
    sort(symbols);
    Ok(())
}
