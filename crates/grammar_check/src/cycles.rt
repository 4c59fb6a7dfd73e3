//! The least cycle among the numbers of slots, or heights that rise where there is none.
ghost use Rattle.std.specs.Prelude.{◌≡◌, ℕ, suc, ◌+◌, ◌-◌, ◌<◌, ◌≤◌, ◌^◌, map, length, slice_index, All, Contains, IfOk, OnOk, IfSome, IsNone, ◌↔◌, ◌⊎◌, ◌++◌, ◌∷◌, []};
ghost use Rattle.horn_clauses.specs.Least.{Clause};
ghost use Rattle.jagged.specs.Rows.{row_at};
ghost use Rattle.slot_analysis.specs.Steps.{HasMore};
ghost use Rattle.grammar_check.specs.Links.{Step, Walks, AreFloors, AreRows, IsLeastPath};
ghost use Rattle.grammar_check.specs.Settled.{node_clause, use_clause, IsOfNodes, IsOfUses, AreSettled, NoneBelow, Rises};

use crate::shortest::cycle_through;
use horn_clauses::{Clauses, NumberSet, least_set};
use jagged::Jagged;
use std::alloc::{AllocError, Global};

// Puts the numbers past a bound that stand for those of a row in the place of what the list had.
fn put_shifted(row: &[u32], by: u32, body: &mut Vec<u32>) -> Result<(), AllocError>
    requires known { All (λ h. h < by) row.now }
    requires small { by + by < 2 ^ 32 }
    ensures { OnOk result (body.new.items ≡ map (λ h. by + h) row.now) }
{
    body.clear();
    for h in row {
        body.push(by + *h)?;
    }
    Ok(())
}

// A number is settled where all from which there is a step to it are.
fn push_nodes(
    alloc: Global,
    rows: &Jagged<u32>,
    total: u32,
    clauses: &mut Clauses,
) -> Result<(), AllocError>
    requires total { total ≡ length rows.now }
    requires small { total + total < 2 ^ 32 }
    requires rows { AreRows total rows.now }
    ensures { OnOk result (HasMore clauses.old clauses.new (IsOfNodes rows.now total total)) }
{
    let mut body = Vec::new(alloc);
    for y in 0..total {
        put_shifted(rows.row(y as usize), total, &mut body)?;
        clauses.push(y, &body)?;
    }
    Ok(())
}

fn push_tie(floors: &[u32], total: u32, y: u32, clauses: &mut Clauses) -> Result<(), AllocError>
    requires known { y < length floors.now }
    requires below { y < total }
    requires small { total + total < 2 ^ 32 }
    ensures { OnOk result (clauses.new ≡ clauses.old ++ use_clause floors.now total y ∷ []) }
{
    let head = total + y;
    if floors[y as usize] < y {
        clauses.push(head, &[y, total + (y - 1)])
    } else {
        clauses.push(head, &[y])
    }
}

// All that are tied to a number are settled where it is and where those below it are.
fn push_ties(floors: &[u32], total: u32, clauses: &mut Clauses) -> Result<(), AllocError>
    requires total { total ≡ length floors.now }
    requires small { total + total < 2 ^ 32 }
    ensures { OnOk result (HasMore clauses.old clauses.new (IsOfUses floors.now total total)) }
{
    for y in 0..total {
        push_tie(floors, total, y, clauses)?;
    }
    Ok(())
}

fn settling(
    alloc: Global,
    rows: &Jagged<u32>,
    floors: &[u32],
    total: u32,
) -> Result<Clauses, AllocError>
    requires total { total ≡ length rows.now }
    requires sized { length rows.now ≡ length floors.now }
    requires small { total + total < 2 ^ 32 }
    requires rows { AreRows total rows.now }
    ensures { IfOk result (λ clauses. (c : Clause) →
        Contains clauses c ↔
        (IsOfNodes rows.now total total c ⊎ IsOfUses floors.now total total c)) }
{
    let mut clauses = Clauses::new(alloc);
    push_nodes(alloc, rows, total, &mut clauses)?;
    push_ties(floors, total, &mut clauses)?;
    Ok(clauses)
}

// The numbers to which no endless walk leads.
fn settled_of(
    alloc: Global,
    rows: &Jagged<u32>,
    floors: &[u32],
    total: u32,
) -> Result<NumberSet, AllocError>
    requires total { total ≡ length rows.now }
    requires sized { length rows.now ≡ length floors.now }
    requires small { total + total < 2 ^ 32 }
    requires rows { AreRows (length rows.now) rows.now }
    ensures { IfOk result (λ settled. AreSettled rows.now floors.now settled) }
{
    let clauses = settling(alloc, rows, floors, total)?;
    least_set(alloc, &clauses, (total + total) as usize)
}

/// The least of the shortest cycles through the least number that is on one, if there is a cycle.
pub fn least_cycle(
    alloc: Global,
    rows: &Jagged<u32>,
    floors: &[u32],
) -> Result<Option<Vec<u32>>, AllocError>
    requires sized { length rows.now ≡ length floors.now }
    requires small { length rows.now + length rows.now < 2 ^ 32 }
    requires rows { AreRows (length rows.now) rows.now }
    requires floors { AreFloors floors.now }
    ensures some { IfOk result (λ r. IfSome r (λ path. (to : ℕ) × (n : ℕ) ×
        IsLeastPath rows.now floors.now to n path.items × NoneBelow rows.now floors.now to)) }
    ensures none { IfOk result (λ r. IsNone r → Rises rows.now floors.now) }
{
    let total = rows.len() as u32;
    let settled = settled_of(alloc, rows, floors, total)?;
    for x in 0..total {
        if !settled.has(x) {
            if let Some(path) = cycle_through(alloc, rows, floors, x)? {
                return Ok(Some(path));
            }
        }
    }
    Ok(None)
}
