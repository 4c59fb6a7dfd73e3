//! Cursors, read.
ghost use Rattle.std.specs.Prelude.{◌≡◌, map, IfOk, IfErr};
ghost use Rattle.grammar_core.specs.Steps.{step_of};
ghost use Rattle.grammar_model.specs.Trees.{Tree};
ghost use Rattle.grammar_model.specs.Steps.{steps_of};
ghost use Rattle.cursor_model.specs.Laid.{Spells};
ghost use Rattle.tree_cursor.specs.declared.refusal.CursorRefusal.TheVariants.{BadCursor};

use crate::CursorRefusal;
use crate::pieces::step_told;
use crate::stack::Stack;
use grammar_core::TreeStep;
use grammar_model::LONGEST_CURSOR;
use std::alloc::Global;

/// The steps of the tree that a text spells, with their places: the tokens lie one place each from place 0 on.
pub fn read_cursor(alloc: Global, text: &str) -> Result<Vec<TreeStep>, CursorRefusal>
    ensures ok { IfOk result (λ steps. (tree : Tree) × Spells text.now tree ×
        (map step_of steps.items ≡ steps_of tree)) }
    ensures bad { IfErr result (λ refusal. refusal ≡ BadCursor → (tree : Tree) →
        Spells text.now tree → ⊥) }
{
    if text.len() > LONGEST_CURSOR {
        return Err(CursorRefusal::BadCursor);
    }
    let mut stack = Stack::new(alloc);
    let mut steps = Vec::new(alloc);
    for piece in text.split('.') {
        let Some(step) = step_told(piece) else {
            return Err(CursorRefusal::BadCursor);
        };
        steps.push(stack.put(step)?)?;
    }
    if stack.starts.as_slice().len() != 1 {
        return Err(CursorRefusal::BadCursor);
    }
    Ok(steps)
}
