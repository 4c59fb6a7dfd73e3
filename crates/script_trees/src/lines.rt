//! A derivation's line, by its steps: the value of each subtree is held until its rule takes it.
ghost use Rattle.std.specs.Prelude.{◌≡◌, ◌<◌, ◌≤◌, ◌-◌, ◌++◌, ◌∷◌, [], drop, length, map, OnOk};
ghost use Rattle.grammar_core.specs.Steps.{step_of};
ghost use Rattle.grammar_model.specs.Trees.{Tree};
ghost use Rattle.grammar_model.specs.Steps.{steps_of};
ghost use Rattle.grammar_model.specs.Text.{text_of};
ghost use Rattle.grammar_model.specs.Values.{Value, Text, Number, list_of, name_of};
ghost use Rattle.value_text.specs.Pool.{AreIds};
ghost use Rattle.valuator.specs.Made.{values_at};
ghost use Rattle.valuator.specs.Told.{replace_newest};
ghost use Rattle.script_model.specs.Replies.{as_line, tree_line};
ghost use Rattle.script_trees.specs.Stack.{after_step, AreStepsOf, CanPut, Holds};

use crate::values::{put_nulled, put_rule, put_token};
use grammar_core::{RuleId, SymbolId, TreeStep, Written};
use std::alloc::{AllocError, Global};
use value_text::{Pool, ValueId, append_text};

/// Makes the lines of derivations, in room that is used again.
#[derive(Drop)]
pub struct TreeLines {
    pool: Pool,
    // the values of subtrees, the newest last
    held: Vec<ValueId>,
    // the parts of the list that was made last
    parts: Vec<ValueId>,
}

fn symbol_name(w: &Written, symbol: SymbolId) -> &str
    requires { symbol < length w.now.names }
    ensures { result.now ≡ name_of w.now symbol }
{
    w.name(symbol)
}

// The newest so many values.
fn newest(held: &[ValueId], count: usize) -> &[ValueId]
    requires { count ≤ length held.now }
    ensures { result.now ≡ drop (length held.now - count) held.now }
{
    &held[held.len() - count..]
}

impl TreeLines {
    /// It takes no memory.
    pub fn new(alloc: Global) -> TreeLines
        ensures held { result.held.items ≡ [] }
    {
        TreeLines {
            pool: Pool::new(alloc),
            held: Vec::new(alloc),
            parts: Vec::new(alloc),
        }
    }

    // A token is held.
    fn token(&mut self, name: &str, from: u32, to: u32) -> Result<(), AllocError>
        requires { AreIds self.old.pool self.old.held.items }
        ensures { OnOk result (Holds self.new.pool self.new.held.items
            (values_at self.old.pool self.old.held.items ++ list_of
            (Text name.now ∷ Number from ∷ Number to ∷ []) ∷ [])) }
    {
        let id = put_token(&mut self.pool, name, from, to)?;
        self.held.push(id)?;
        Ok(())
    }

    // A symbol that spans nothing is held.
    fn nulled(&mut self, name: &str) -> Result<(), AllocError>
        requires { AreIds self.old.pool self.old.held.items }
        ensures { OnOk result (Holds self.new.pool self.new.held.items
            (values_at self.old.pool self.old.held.items ++ list_of (Text name.now ∷ []) ∷ [])) }
    {
        let id = put_nulled(&mut self.pool, name)?;
        self.held.push(id)?;
        Ok(())
    }

    // A rule takes its children, the newest so many, and is held.
    fn rule(&mut self, rule: RuleId, name: &str, children: u32) -> Result<(), AllocError>
        requires held { AreIds self.old.pool self.old.held.items }
        requires enough { children ≤ length self.old.held.items }
        ensures { OnOk result (Holds self.new.pool self.new.held.items
            (replace_newest children (λ vs. list_of (Text name.now ∷ Number rule ∷ vs))
            (values_at self.old.pool self.old.held.items))) }
    {
        let taken = newest(&self.held, children as usize);
        let id = put_rule(&mut self.pool, rule, name, taken, &mut self.parts)?;
        self.held.truncate(self.held.len() - children as usize);
        self.held.push(id)?;
        Ok(())
    }

    // What a step makes is held.
    fn step(&mut self, w: &Written, step: TreeStep) -> Result<(), AllocError>
        requires held { AreIds self.old.pool self.old.held.items }
        requires can { CanPut w.now (length self.old.held.items) (step_of step) }
        ensures { OnOk result (Holds self.new.pool self.new.held.items
            (after_step w.now (values_at self.old.pool self.old.held.items) (step_of step))) }
    {
        match step {
            TreeStep::Token { symbol, from, to } => self.token(symbol_name(w, symbol), from, to),
            TreeStep::Nulled { symbol, at: _ } => self.nulled(symbol_name(w, symbol)),
            TreeStep::Rule {
                rule,
                children,
                from: _,
                to: _,
            } => {
                let name = symbol_name(w, w.lhs(rule.0 as usize));
                self.rule(rule, name, children)
            }
        }
    }

    // Puts the text of the one value, and the end of its line, in place of what the line held.
    fn put_text(&self, line: &mut Vec<u8>) -> Result<(), AllocError>
        requires { (v : Value) × Holds self.now.pool self.now.held.items (v ∷ []) }
        ensures { OnOk result ((v : Value) → Holds self.now.pool self.now.held.items (v ∷ []) →
            line.new.items ≡ as_line (text_of v)) }
    {
        line.clear();
        append_text(&self.pool, self.held[0], line)?;
        line.push(b'\n')?;
        Ok(())
    }

    /// Puts the line of the derivation with these steps in place of what `line` held.
    pub fn put_line(
        &mut self,
        w: &Written,
        steps: &[TreeStep],
        line: &mut Vec<u8>,
    ) -> Result<(), AllocError>
        requires { AreStepsOf w.now (map step_of steps.now) }
        ensures { OnOk result ((t : Tree) → map step_of steps.now ≡ steps_of t →
            line.new.items ≡ tree_line w.now t) }
    {
        w.known();
        self.pool.clear();
        self.held.clear();
        for step in steps {
            self.step(w, *step)?;
        }
        self.put_text(line)
    }
}
