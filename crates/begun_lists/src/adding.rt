//! Sets that items are added to.
ghost use Rattle.std.specs.Prelude.{◌≡◌, ◌+◌, ◌↔◌, length, OnOk, Contains};
ghost use Rattle.recognizer_model.specs.declared.Item.{Item};
ghost use Rattle.begun_lists.specs.Closing.{Adds, Grows};

use item_sets::ItemSet;
use recognizer_model::Item;
use slif_base::Steps;
use std::alloc::AllocError;
use std::sync::ledger::Ledger;

/// Tries to add an item, and counts the try.
#[inline(always)]
pub fn add_item<L: Ledger>(
    set: &mut ItemSet,
    item: Item,
    steps: &mut Steps<L>,
) -> Result<(), AllocError>
    ensures added { OnOk result (Adds set.old set.new item) }
    ensures counted { steps.new ≡ steps.old + 1 }
{
    steps.tick();
    set.insert(item)
}

/// Adds the items that are not there yet.
pub fn add_items<L: Ledger>(
    set: &mut ItemSet,
    items: &[Item],
    steps: &mut Steps<L>,
) -> Result<(), AllocError>
    ensures grows { OnOk result (Grows set.old set.new items.now) }
    ensures counted { OnOk result (steps.new ≡ steps.old + length items.now) }
{
    for item in items {
        add_item(set, *item, steps)?;
    }
    Ok(())
}

/// Begins a set anew with these items.
pub fn refill<L: Ledger>(
    set: &mut ItemSet,
    items: &[Item],
    steps: &mut Steps<L>,
) -> Result<(), AllocError>
    ensures same { OnOk result ((item : Item) →
        Contains set.new item ↔ Contains items.now item) }
    ensures counted { OnOk result (steps.new ≡ steps.old + length items.now) }
{
    set.clear();
    add_items(set, items, steps)
}
