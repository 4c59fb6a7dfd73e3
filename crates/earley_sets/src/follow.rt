//! What goes on from an item in its set, and what its completion leads to.
ghost use Rattle.std.specs.Prelude.{◌≡◌, ◌≢◌, ◌<◌, ◌≤◌, ◌+◌, ◌^◌, ◌++◌, ◌⊎◌, ◌↔◌, length, map, OnOk, IfOk, IsTrue, Contains};
ghost use Rattle.recognizer_model.specs.declared.Item.{Item};
ghost use Rattle.recognizer_model.specs.Items.{advanced as item_after};
ghost use Rattle.item_rows.specs.Rows.{row_at};
ghost use Rattle.earley_sets.specs.Kept.{IsItem, HasRows};
ghost use Rattle.leo_items.specs.ByRows.{IsMemo, NotesMore, AreNulled};
ghost use Rattle.begun_lists.specs.Closing.{IsAdvancedOver, IsDone, GoesOn};
ghost use Rattle.begun_lists.specs.Tried.{RisesWithin};
ghost use Rattle.earley_sets.specs.Tried.{IsWaiting, RisesWithinDone, MakesLink};
ghost use Rattle.earley_sets.specs.Hiding.{GoesTwice, WholeStepsTwice};

use begun_lists::{list_skipped, next_symbol};
use grammar_core::Flat;
use item_rows::{Row, Rows};
use leo_items::{Memo, advanced, leo_of, pair_above, topmost};
use recognizer_model::{Item, Pair};
use slif_base::Steps;
use std::alloc::{AllocError, AllocFailed};
use std::sync::ledger::Ledger;

/// Lists items with their dots advanced.
pub fn list_advanced(waiting: &Row<'_>, next: &mut Vec<Item>) -> Result<(), AllocFailed<Item>>
    requires { (item : Item) → Contains waiting.now item → item.dot + 1 < 2 ^ 32 }
    ensures { OnOk result (next.new.items ≡ next.old.items ++ map item_after waiting.now) }
{
    for k in 0..waiting.len() {
        next.push(advanced(waiting.at(k)))?;
    }
    Ok(())
}

/// Lists the items that the completion of a symbol advances, of a set that is closed.
pub fn list_completed(
    flat: &Flat,
    rows: &Rows<'_>,
    origin: u32,
    symbol: u32,
    next: &mut Vec<Item>,
) -> Result<(), AllocFailed<Item>>
    requires rows { HasRows flat.now rows.now }
    requires origin { origin < length rows.now.sets }
    ensures listed { OnOk result ((other : Item) → Contains next.new.items other ↔
        (Contains next.old.items other ⊎ IsAdvancedOver flat.now (row_at rows.now.sets origin)
        symbol other)) }
    ensures links { OnOk result (RisesWithin (IsWaiting flat.now (row_at rows.now.sets origin) symbol)
        (length next.old.items) (length next.new.items)) }
{
    flat.known();
    let waiting = rows.waiting(origin as usize, symbol);
    list_advanced(&waiting, next)
}

// Whether a way goes on after its first step.
fn goes_on(step: Item, top: Item) -> bool
    ensures { IsTrue result ↔ (step ≢ top) }
{
    step != top
}

// Lists what the completion of a symbol that began in an earlier set leads to. Whether two single steps lead there.
fn list_done<L: Ledger>(
    flat: &Flat,
    rows: &Rows<'_>,
    memo: &mut Memo,
    pair: Pair,
    next: &mut Vec<Item>,
    steps: &mut Steps<L>,
) -> Result<bool, AllocError>
    requires rows { HasRows flat.now rows.now }
    requires nulled { AreNulled flat.now rows.now.sets }
    requires memo { IsMemo flat.now rows.now.sets memo.old }
    requires set { pair.set < length rows.now.sets }
    ensures listed { OnOk result ((other : Item) → Contains next.new.items other ↔
        (Contains next.old.items other ⊎ IsDone flat.now rows.now.sets pair.set pair.symbol
        other)) }
    ensures links { OnOk result (RisesWithinDone flat.now rows.now.sets pair.set pair.symbol
        (length next.old.items) (length next.new.items)) }
    ensures twice { IfOk result (λ twice.
        IsTrue twice ↔ GoesTwice flat.now rows.now.sets pair.set pair.symbol) }
    ensures memo { NotesMore flat.now rows.now.sets memo.old memo.new }
    ensures counted { steps.new + length memo.old ≡ steps.old + length memo.new }
{
    flat.known();
    let waiting = rows.waiting(pair.set as usize, pair.symbol);
    match leo_of(flat, &waiting) {
        Some(step) => {
            let top = topmost(flat, rows, memo, pair, step, steps)?;
            next.push(top)?;
            Ok(goes_on(step, top))
        }
        None => {
            list_advanced(&waiting, next)?;
            Ok(false)
        }
    }
}

/// Lists what goes on from an item in its set: what follows, but the rules that begin. Whether two single steps lead on.
pub fn list_next<L: Ledger>(
    flat: &Flat,
    rows: &Rows<'_>,
    memo: &mut Memo,
    earleme: u32,
    item: Item,
    next: &mut Vec<Item>,
    steps: &mut Steps<L>,
) -> Result<bool, AllocError>
    requires item { IsItem flat.now item }
    requires rows { HasRows flat.now rows.now }
    requires nulled { AreNulled flat.now rows.now.sets }
    requires memo { IsMemo flat.now rows.now.sets memo.old }
    requires earleme { earleme ≤ length rows.now.sets }
    ensures listed { OnOk result ((other : Item) → Contains next.new.items other ↔
        (Contains next.old.items other ⊎ GoesOn flat.now rows.now.sets earleme item other)) }
    ensures links { OnOk result (RisesWithin (MakesLink flat.now rows.now.sets earleme item)
        (length next.old.items) (length next.new.items)) }
    ensures twice { IfOk result (λ twice.
        IsTrue twice ↔ WholeStepsTwice flat.now rows.now.sets earleme item) }
    ensures memo { NotesMore flat.now rows.now.sets memo.old memo.new }
    ensures counted { steps.new + length memo.old ≡ steps.old + length memo.new }
{
    flat.known();
    match next_symbol(flat, item) {
        Some(x) => {
            list_skipped(flat, item, x, next)?;
            Ok(false)
        }
        None => {
            if item.origin < earleme {
                list_done(flat, rows, memo, pair_above(flat, item), next, steps)
            } else {
                Ok(false)
            }
        }
    }
}
