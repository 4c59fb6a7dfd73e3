//! Leo items: the single way on from a completed symbol, where a set has no other, and what was noted of where such ways end.
#![tactic(auto)]

mod below;
mod chain;
mod hidden;
mod memo;

ghost use Rattle.std.specs.Prelude.{◌≡◌, ℕ, ◌+◌, ◌<◌, ◌^◌, List, length, Some, IfSome, IsNone, Contains};
ghost use Rattle.recognizer_model.specs.declared.Item.{Item as TheItem};
ghost use Rattle.recognizer_model.specs.Items.{after, IsWhole, advanced as item_after};
ghost use Rattle.leo_items.specs.Steps.{IsStep, StepsAreLeo};

pub use below::list_below;
pub use chain::{pair_above, step_in, topmost};
use grammar_core::Flat;
pub use hidden::{list_hidden, single_step, some_steps_twice, top_above};
use item_rows::Row;
pub use item_sets::NearHasher;
pub use memo::Memo;
use recognizer_model::Item;

/// The item with its dot advanced.
pub fn advanced(item: Item) -> Item
    requires { item.dot + 1 < 2 ^ 32 }
    ensures { result ≡ item_after item }
{
    Item {
        rule: item.rule,
        dot: item.dot + 1,
        origin: item.origin,
    }
}

// The item with its dot advanced, if it is at the end then.
fn step_of(flat: &Flat, item: Item) -> Option<Item>
    requires { (x : ℕ) × (after flat.now item ≡ Some x) }
    ensures some { IfSome result (λ step. IsWhole flat.now (item_after item) ×
        (step ≡ item_after item)) }
    ensures none { IsNone result → ¬ IsWhole flat.now (item_after item) }
{
    flat.known();
    let step = advanced(item);
    match flat.part(step.rule, step.dot) {
        None => Some(step),
        Some(_) => None,
    }
}

/// The step of a symbol, of the items of a set that wait for it.
pub fn leo_of(flat: &Flat, waiting: &Row<'_>) -> Option<Item>
    requires { (item : TheItem) → Contains waiting.now item →
        (x : ℕ) × (after flat.now item ≡ Some x) }
    ensures { IsStep flat.now waiting.now result }
{
    if waiting.len() != 1 {
        return None;
    }
    step_of(flat, waiting.at(0))
}

/// In each set, over any edges, the step of a symbol is that of its Leo item.
pub fn steps_are_leo()
    ensures { StepsAreLeo }
{}
