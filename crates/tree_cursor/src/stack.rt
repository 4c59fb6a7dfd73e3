//! The stack of trees that steps work on: where each tree begins, and where the last one ends.
ghost use Rattle.std.specs.Prelude.{◌≡◌, ◌⊎◌, ◌+◌, ◌-◌, ◌<◌, ◌≤◌, ◌++◌, ◌∷◌, [], length, take, slice_index, IfSome, IsNone, IfOk, IfErr};
ghost use Rattle.grammar_core.specs.Steps.{step_of};
ghost use Rattle.tree_cursor.specs.Told.{IsDone, TakesWrong};
ghost use Rattle.tree_cursor.specs.declared.refusal.CursorRefusal.TheVariants.{BadCursor};

use crate::CursorRefusal;
use grammar_core::TreeStep;
use std::alloc::Global;

/// Trees that lie side by side from place 0 on.
#[derive(Drop)]
pub struct Stack {
    pub starts: Vec<u32>,
    pub end: u32,
}

impl Stack {
    /// No tree.
    pub fn new(alloc: Global) -> Stack
        ensures starts { result.starts.items ≡ [] }
        ensures end { result.end ≡ 0 }
    {
        Stack {
            starts: Vec::new(alloc),
            end: 0,
        }
    }

    // Takes the newest so many trees off, of which there is one at least. Answers where the first of them begins.
    fn take(&mut self, count: u32) -> Option<u32>
        ensures within { IfSome result (λ start. (0 < count) ×
            (count ≤ length self.old.starts.items)) }
        ensures start { IfSome result (λ start. start ≡ slice_index self.old.starts.items
            (length self.old.starts.items - count)) }
        ensures none { IsNone result → (count ≡ 0) ⊎ (length self.old.starts.items < count) }
        ensures left { IfSome result (λ start. self.new.starts.items ≡
            take (length self.old.starts.items - count) self.old.starts.items) }
        ensures end { self.new.end ≡ self.old.end }
    {
        let left = self.starts.as_slice().len().checked_sub(count as usize)?;
        let start = *self.starts.as_slice().get(left)?;
        self.starts.truncate(left);
        Some(start)
    }

    // Puts a token there, or a nulled leaf.
    fn put_leaf(&mut self, length: u32) -> Result<u32, CursorRefusal>
        requires { self.old.end + length ≤ 4294967295 }
        ensures start { IfOk result (λ start. start ≡ self.old.end) }
        ensures starts { IfOk result (λ start. self.new.starts.items ≡
            self.old.starts.items ++ self.old.end ∷ []) }
        ensures end { IfOk result (λ start. self.new.end ≡ self.old.end + length) }
        ensures no_bad { IfErr result (λ refusal. refusal ≡ BadCursor → ⊥) }
    {
        let start = self.end;
        self.starts.push(start)?;
        self.end += length;
        Ok(start)
    }

    /// Does a step, and gives it its places.
    pub fn put(&mut self, step: TreeStep) -> Result<TreeStep, CursorRefusal>
        requires room { self.old.end < 4294967295 }
        ensures done { IfOk result (λ done. IsDone self.old self.new (step_of step)
            (step_of done)) }
        ensures end { IfOk result (λ done. self.new.end ≤ self.old.end + 1) }
        ensures bad { IfErr result (λ refusal. refusal ≡ BadCursor →
            TakesWrong (length self.old.starts.items) (step_of step)) }
    {
        match step {
            TreeStep::Token { symbol, .. } => {
                let from = self.put_leaf(1)?;
                Ok(TreeStep::Token {
                    symbol,
                    from,
                    to: from + 1,
                })
            }
            TreeStep::Nulled { symbol, .. } => {
                let at = self.put_leaf(0)?;
                Ok(TreeStep::Nulled { symbol, at })
            }
            TreeStep::Rule { rule, children, .. } => {
                let Some(from) = self.take(children) else {
                    return Err(CursorRefusal::BadCursor);
                };
                self.starts.push(from)?;
                Ok(TreeStep::Rule {
                    rule,
                    children,
                    from,
                    to: self.end,
                })
            }
        }
    }
}
