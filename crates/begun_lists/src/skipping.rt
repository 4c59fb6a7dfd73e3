//! The symbol that an item waits for, and what skipping over it makes.
ghost use Rattle.std.specs.Prelude.{◌≡◌, ◌<◌, ◌+◌, ◌^◌, ◌⊎◌, ◌↔◌, length, IfSome, OnOk, Contains};
ghost use Rattle.recognizer_model.specs.declared.Item.{Item};
ghost use Rattle.recognizer_model.specs.Items.{after};
ghost use Rattle.item_rows.specs.Kept.{IsItem};
ghost use Rattle.begun_lists.specs.Closing.{IsSkipped};
ghost use Rattle.begun_lists.specs.Tried.{RisesWithin, MakesSkip};

use grammar_core::Flat;
use leo_items::advanced;
use recognizer_model::Item;
use std::alloc::AllocFailed;

/// The symbol after the dot.
pub fn next_symbol(flat: &Flat, item: Item) -> Option<u32>
    requires { IsItem flat.now item }
    ensures value { result ≡ after flat.now item }
    ensures fits { IfSome result (λ _. item.dot + 1 < 2 ^ 32) }
{
    flat.known();
    flat.rhs(item.rule).get(item.dot as usize).copied()
}

/// Lists an item that waits for a symbol, with its dot advanced, if the symbol is nullable.
pub fn list_skipped(
    flat: &Flat,
    item: Item,
    symbol: u32,
    next: &mut Vec<Item>,
) -> Result<(), AllocFailed<Item>>
    requires item { item.dot + 1 < 2 ^ 32 }
    requires symbol { symbol < length flat.now.symbols }
    ensures listed { OnOk result ((other : Item) → Contains next.new.items other ↔
        (Contains next.old.items other ⊎ IsSkipped flat.now item symbol other)) }
    ensures links { OnOk result (RisesWithin (MakesSkip flat.now item symbol) (length next.old.items)
        (length next.new.items)) }
{
    if flat.nullable(symbol) {
        next.push(advanced(item))?;
    }
    Ok(())
}
