//! What leads a walk to the derivation that has these steps: a row for each of them, in a stack as that of the counts.
ghost use Rattle.std.specs.Prelude.{ℕ, ◌≡◌, ◌^◌, ◌<◌, List, [], Some, length, map, drop, slice_get, IfOk, OnOk};
ghost use Rattle.grammar_core.specs.Steps.{step_of};
ghost use Rattle.grammar_model.specs.Steps.{Step};
ghost use Rattle.forest_laws.specs.Guide.{all_ends, ends_after, step_from, top_of};
ghost use Rattle.tree_iter.specs.Leads.{AreEnds, AreRows};

use grammar_core::TreeStep;
use slif_base::number;
use std::alloc::{AllocError as NoMemory, Global};

/// Of a step, where its tree begins, and after how many steps the tree before it ends; 0 is none.
#[derive(Clone, Copy)]
pub struct LeadRow {
    pub from: u32,
    pub below: u32,
}

fn row_at(rows: &[LeadRow], k: usize) -> LeadRow
    requires { k < length rows.now }
    ensures { slice_get rows.now k ≡ Some result }
{
    rows[k]
}

// After how many steps the tree below so many of the newest ends.
fn below_newest(rows: &[LeadRow], count: u32) -> u32
    requires few { length rows.now < 2 ^ 32 }
    requires ends { (ends : List ℕ) × AreEnds rows.now ends × (length rows.now ≡ top_of ends) }
    ensures { (ends : List ℕ) → AreEnds rows.now ends → length rows.now ≡ top_of ends →
        result ≡ top_of (drop count ends) }
{
    let mut top = rows.len() as u32;
    'newest: for _ in 0..count {
        if top == 0 {
            return 0;
        }
        top = row_at(rows, top as usize - 1).below;
    }
    top
}

// The row of a step, by those of the steps before it.
fn row_of(rows: &[LeadRow], step: TreeStep) -> LeadRow
    requires few { length rows.now < 2 ^ 32 }
    requires rows { (steps : List Step) × AreRows rows.now steps }
    ensures from { result.from ≡ step_from (step_of step) }
    ensures below { (steps : List Step) → AreRows rows.now steps →
        result.below ≡ top_of (drop 1 (ends_after (all_ends [] 0 steps) (length steps)
        (step_of step))) }
{
    let top = rows.len() as u32;
    match step {
        TreeStep::Token { from, .. } => LeadRow { from, below: top },
        TreeStep::Nulled { at, .. } => LeadRow {
            from: at,
            below: top,
        },
        TreeStep::Rule { children, from, .. } => LeadRow {
            from,
            below: below_newest(rows, children),
        },
    }
}

/// The rows of steps. More than 2^32 - 1 of them count as too many for memory.
pub fn leads_of(alloc: Global, to: &[TreeStep]) -> Result<Vec<LeadRow>, NoMemory>
    ensures rows { IfOk result (λ rows. AreRows rows.items (map step_of to.now)) }
    ensures few { OnOk result (length to.now < 2 ^ 32) }
{
    number(to.len())?;
    let mut rows = Vec::with_capacity(alloc, to.len())?;
    for step in to {
        let row = row_of(&rows, *step);
        rows.push(row)?;
    }
    Ok(rows)
}
