//! What begins where some symbols are awaited: the predictions of a set.
ghost use Rattle.std.specs.Prelude.{◌≡◌, ◌≢◌, ℕ, ◌<◌, ◌≤◌, ◌⊎◌, ◌↔◌, [], length, IsTrue, OnOk, Contains};
ghost use Rattle.std.specs.List.{AllPairs};
ghost use Rattle.recognizer_model.specs.declared.Item.{Item};
ghost use Rattle.recognizer_model.specs.Flat.{IsRule, lhs_of};
ghost use Rattle.recognizer_model.specs.Items.{first_item};
ghost use Rattle.item_rows.specs.Kept.{IsItem, AreItems};
ghost use Rattle.item_rows.specs.Heads.{AreHeads};
ghost use Rattle.begun_lists.specs.Closing.{Follows, IsReached};
ghost use Rattle.begun_lists.specs.Begun.{IsPredicted, IsFirst, BeginTogether, AreBegun};
ghost use Rattle.begun_lists.specs.Tried.{RisesWithin, MakesLater, MakesOneLater, IsRuleOf, TriesBegun};

use crate::adding::{add_items, refill};
use crate::skipping::{list_skipped, next_symbol};
use grammar_core::Flat;
use item_rows::{Heads, rules_of};
use item_sets::ItemSet;
use recognizer_model::Item;
use slif_base::Steps;
use std::alloc::{AllocError, AllocFailed};
use std::sync::ledger::Ledger;

// Lists the first items of the rules from the first one up to the end.
fn list_predicted(first: u32, end: u32, next: &mut Vec<Item>) -> Result<(), AllocFailed<Item>>
    ensures listed { OnOk result ((other : Item) → Contains next.new.items other ↔
        (Contains next.old.items other ⊎ ((r : ℕ) × (first ≤ r) × (r < end) ×
        (other ≡ first_item r 0)))) }
    ensures links { OnOk result (RisesWithin (λ (r : ℕ). (first ≤ r) × (r < end))
        (length next.old.items) (length next.new.items)) }
{
    for rule in first..end {
        next.push(Item {
            rule,
            dot: 0,
            origin: 0,
        })?;
    }
    Ok(())
}

// Lists the first items of a symbol's rules.
fn list_rules(
    flat: &Flat,
    heads: &Heads,
    symbol: u32,
    next: &mut Vec<Item>,
) -> Result<(), AllocFailed<Item>>
    requires { AreHeads flat.now heads.now }
    ensures listed { OnOk result ((other : Item) →
        Contains next.new.items other ↔
        (Contains next.old.items other ⊎ IsPredicted flat.now symbol other)) }
    ensures links { OnOk result (RisesWithin
        (λ (r : ℕ). IsRule flat.now r × (lhs_of flat.now r ≡ symbol)) (length next.old.items)
        (length next.new.items)) }
{
    let rules = rules_of(flat, heads, symbol);
    list_predicted(rules.start, rules.end, next)
}

// Whether the rules of a symbol have begun in the set.
fn have_begun(flat: &Flat, heads: &Heads, set: &ItemSet, symbol: u32) -> bool
    requires heads { AreHeads flat.now heads.now }
    requires together { BeginTogether flat.now set.now }
    ensures { IsTrue result → (other : Item) → IsPredicted flat.now symbol other →
        Contains set.now other }
{
    let rules = rules_of(flat, heads, symbol);
    set.contains(Item {
        rule: rules.start,
        dot: 0,
        origin: 0,
    })
}

// Lists the first items of a symbol's rules, if they are not in the set.
fn list_unbegun(
    flat: &Flat,
    heads: &Heads,
    set: &ItemSet,
    symbol: u32,
    next: &mut Vec<Item>,
) -> Result<(), AllocFailed<Item>>
    requires heads { AreHeads flat.now heads.now }
    requires together { BeginTogether flat.now set.now }
    requires empty { next.old.items ≡ [] }
    ensures only { OnOk result ((other : Item) → Contains next.new.items other →
        IsPredicted flat.now symbol other) }
    ensures all { OnOk result ((other : Item) → IsPredicted flat.now symbol other →
        Contains set.now other ⊎ Contains next.new.items other) }
    ensures links { OnOk result (RisesWithin
        (λ (r : ℕ). IsRule flat.now r × (lhs_of flat.now r ≡ symbol)) 0 (length next.new.items)) }
{
    if have_begun(flat, heads, set, symbol) {
        return Ok(());
    }
    list_rules(flat, heads, symbol, next)
}

// Lists what follows from an item that begins, if it is not in the set.
fn list_later(
    flat: &Flat,
    heads: &Heads,
    set: &ItemSet,
    item: Item,
    next: &mut Vec<Item>,
) -> Result<(), AllocFailed<Item>>
    requires item { IsItem flat.now item }
    requires origin { item.origin ≡ 0 }
    requires heads { AreHeads flat.now heads.now }
    requires together { BeginTogether flat.now set.now }
    ensures only { OnOk result ((other : Item) → Contains next.new.items other →
        Follows flat.now [] 0 item other) }
    ensures all { OnOk result ((other : Item) → Follows flat.now [] 0 item other →
        Contains set.now other ⊎ Contains next.new.items other) }
    ensures links { OnOk result (RisesWithin (MakesLater flat.now item) 0 (length next.new.items)) }
{
    flat.known();
    next.clear();
    if let Some(symbol) = next_symbol(flat, item) {
        list_unbegun(flat, heads, set, symbol, next)?;
        list_skipped(flat, item, symbol, next)?;
    }
    Ok(())
}

// Adds whatever follows from the items of the set.
fn close_begun<L: Ledger>(
    flat: &Flat,
    heads: &Heads,
    set: &mut ItemSet,
    next: &mut Vec<Item>,
    steps: &mut Steps<L>,
) -> Result<(), AllocError>
    requires heads { AreHeads flat.now heads.now }
    requires items { AreItems flat.now set.old }
    requires origins { (item : Item) → Contains set.old item → item.origin ≡ 0 }
    requires together { BeginTogether flat.now set.old }
    ensures closed { OnOk result ((item : Item) →
        Contains set.new item ↔ IsReached (Follows flat.now [] 0) set.old item) }
    ensures counted { OnOk result (RisesWithin (MakesOneLater flat.now set.new) steps.old
        steps.new) }
{
    for k in 0..usize::MAX {
        let Some(item) = set.get(k) else {
            return Ok(());
        };
        list_later(flat, heads, set, item, next)?;
        add_items(set, next, steps)?;
    }
    let _len = set.len();
    unreachable!()
}

// Lists the first items of the symbols' rules, in place of what it held.
fn list_firsts(
    flat: &Flat,
    heads: &Heads,
    symbols: &[u32],
    next: &mut Vec<Item>,
) -> Result<(), AllocFailed<Item>>
    requires heads { AreHeads flat.now heads.now }
    requires once { AllPairs (λ x y. x ≢ y) symbols.now }
    ensures listed { OnOk result ((item : Item) →
        Contains next.new.items item ↔ IsFirst flat.now symbols.now item) }
    ensures tried { OnOk result (RisesWithin (IsRuleOf flat.now symbols.now) 0
        (length next.new.items)) }
{
    next.clear();
    for symbol in symbols {
        list_rules(flat, heads, *symbol, next)?;
    }
    Ok(())
}

/// Lists what begins where some symbols are awaited, in place of what the set held. Each try to add an item is a step.
pub fn fill_begun<L: Ledger>(
    flat: &Flat,
    heads: &Heads,
    symbols: &[u32],
    set: &mut ItemSet,
    next: &mut Vec<Item>,
    steps: &mut Steps<L>,
) -> Result<(), AllocError>
    requires heads { AreHeads flat.now heads.now }
    requires once { AllPairs (λ x y. x ≢ y) symbols.now }
    ensures begun { OnOk result (AreBegun flat.now (Contains symbols.now) set.new) }
    ensures tried { OnOk result (TriesBegun flat.now symbols.now set.new steps.old steps.new) }
{
    list_firsts(flat, heads, symbols, next)?;
    refill(set, next, steps)?;
    close_begun(flat, heads, set, next, steps)?;
    Ok(())
}
