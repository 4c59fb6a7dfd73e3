//! The step of the items that a recognizer keeps in a set and that wait for a symbol.
ghost use Rattle.std.specs.Prelude.{◌≡◌, ◌≢◌, ℕ, ◌≤◌, Some, Contains, IfOk};
ghost use Rattle.std.specs.List.{AllPairs};
ghost use Rattle.recognizer_model.specs.declared.Item.{Item as TheItem};
ghost use Rattle.recognizer_model.specs.Items.{after};
ghost use Rattle.earley_sets.specs.Recognizer.{earleme_of};

use earley_sets::Recce;
use grammar_core::Flat;
use item_rows::Rows;
use leo_items::leo_of;
use recognizer_model::Item;
use std::alloc::{AllocError, Global};

// The items of a set that wait for a symbol.
fn waiting_in(
    alloc: Global,
    recce: &Recce<'_>,
    j: u32,
    symbol: u32,
) -> Result<Vec<Item>, AllocError>
    requires { j ≤ earleme_of recce.now }
    ensures waits { IfOk result (λ items. (item : TheItem) → Contains items.items item →
        after recce.now.flat item ≡ Some symbol) }
    ensures once { IfOk result (λ items. AllPairs (λ x y. x ≢ y) items.items) }
{
    let set = recce.waiting(j, symbol);
    let mut items = Vec::new(alloc);
    for k in 0..set.len() {
        items.push(set.at(k))?;
    }
    Ok(items)
}

// Their step, where they are a row.
fn step_of(
    alloc: Global,
    flat: &Flat,
    items: &[Item],
    symbol: u32,
) -> Result<Option<Item>, AllocError>
    requires waits { (item : TheItem) → Contains items.now item → after flat.now item ≡ Some symbol }
    requires once { AllPairs (λ x y. x ≢ y) items.now }
{
    let mut rows = Rows::new(alloc, flat)?;
    rows.push(items, 0)?;
    let step = leo_of(flat, &rows.row(0));
    drop(rows);
    Ok(step)
}

/// Whether a set and a symbol have that step.
pub(crate) fn has_step(
    alloc: Global,
    recce: &Recce<'_>,
    j: u32,
    symbol: u32,
    wanted: Option<(u32, u32, u32)>,
) -> Result<bool, AllocError> {
    if j > recce.place() {
        return Ok(false);
    }
    let items = waiting_in(alloc, recce, j, symbol)?;
    let step = step_of(alloc, recce.flat(), &items, symbol)?;
    Ok(step.map(|item| (item.rule, item.dot, item.origin)) == wanted)
}
