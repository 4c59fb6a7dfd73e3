// The place of a list of derivations that a text tells.
ghost use Rattle.std.specs.Prelude.{◌≡◌, map, option_map, IfOk, IfErr};
ghost use Rattle.grammar_core.specs.Steps.{step_of};
ghost use Rattle.tree_cursor.specs.declared.refusal.CursorRefusal.TheVariants.{BadCursor};
ghost use Rattle.value_lines.specs.Paging.{IsPlaceTold};
ghost use Rattle.tellings.specs.Places.{TellsNoPlace};

use grammar_core::TreeStep;
use std::alloc::Global;
use tree_cursor::{CursorRefusal, read_cursor};

// the text of the place before the first derivation
const START: &str = "0";

/// The steps of the derivation that the place comes after; None for the place before the first.
pub fn place_of(alloc: Global, text: &str) -> Result<Option<Vec<TreeStep>>, CursorRefusal>
    ensures told { IfOk result (λ to. IsPlaceTold text.now
        (option_map (λ steps. map step_of steps.items) to)) }
    ensures bad { IfErr result (λ refusal. refusal ≡ BadCursor → TellsNoPlace text.now) }
{
    if text == START {
        return Ok(None);
    }
    Ok(Some(read_cursor(alloc, text)?))
}
