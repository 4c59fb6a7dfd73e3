//! Parts of rows: what waits for a symbol, and what that was begun for.
ghost use Rattle.std.specs.Prelude.{◌≡◌, ℕ, ◌<◌, ◌↔◌, ◌⊎◌, ◌++◌, [], List, length, Some, None, OnOk, IfOk, IsTrue, Contains, slice_get};
ghost use Rattle.recognizer_model.specs.Flat.{IsRule};
ghost use Rattle.recognizer_model.specs.declared.thread.Thread.{Thread as AThread};
ghost use Rattle.recognizer_model.specs.Threads.{next, Waiting};
ghost use Rattle.threads.specs.Lists.{IsGrown, AreThreads, AreParts};
ghost use Rattle.threads.specs.Steps.{IsPartIn, FoldsIn, HasLefts};
ghost use Rattle.threads.specs.Order.{IsInOrder, IsOrderOf};
ghost use Rattle.threads.specs.Goals.{HasAdded, HasAddedLefts, IsPartList};

use crate::fold::{Folded, fold_ordered, waits_for};
use crate::lists::Lists;
use crate::order::waiting;
use grammar_core::Flat;
use recognizer_model::{Label, Thread};
use std::alloc::{AllocError, Global};

// Adds a symbol that is not there yet.
fn add_goal(goals: &mut Vec<u32>, goal: u32) -> Result<(), AllocError>
    ensures { OnOk result (HasAdded goals.old.items goals.new.items goal) }
{
    if !goals.contains(&goal) {
        goals.push(goal)?;
    }
    Ok(())
}

// Adds the left sides of the threads that begin in the row and wait for a goal.
fn add_lefts(flat: &Flat, row: &[Thread], goal: u32, goals: &mut Vec<u32>) -> Result<(), AllocError>
    requires { (th : AThread) → Contains row.now th → IsRule flat.now th.rule }
    ensures { OnOk result (HasAddedLefts flat.now row.now goal goals.old.items goals.new.items) }
{
    for thread in row {
        if thread.label.is_none() && waits_for(flat, *thread, goal) {
            add_goal(goals, flat.lhs(thread.rule))?;
        }
    }
    Ok(())
}

fn goal_at(goals: &[u32], k: usize) -> Option<u32>
    ensures { result ≡ slice_get goals.now k }
{
    goals.get(k).copied()
}

// Adds what the goals were begun for.
fn close_goals(
    flat: &Flat,
    row: &[Thread],
    ordered: &[Thread],
    goals: &mut Vec<u32>,
) -> Result<(), AllocError>
    requires rules { (th : AThread) → Contains row.now th → IsRule flat.now th.rule }
    requires order { IsOrderOf flat.now row.now ordered.now }
    ensures kept { OnOk result ((x : ℕ) → Contains goals.old.items x → Contains goals.new.items x) }
    ensures lefts { OnOk result (HasLefts flat.now row.now goals.new.items) }
{
    for k in 0..usize::MAX {
        let Some(goal) = goal_at(goals, k) else {
            return Ok(());
        };
        add_lefts(flat, waiting(flat, ordered, goal), goal, goals)?;
    }
    let _len = goals.len();
    Ok(())
}

// Lists the threads that wait for a goal.
fn list_waiting(
    flat: &Flat,
    ordered: &[Thread],
    goal: u32,
    part: &mut Vec<Thread>,
) -> Result<(), AllocError>
    requires { IsInOrder flat.now ordered.now }
    ensures { OnOk result ((th : AThread) → Contains part.new.items th ↔
        (Contains part.old.items th ⊎ (Contains ordered.now th × (next flat.now th ≡ Some goal)))) }
{
    let threads = waiting(flat, ordered, goal);
    part.extend_from_slice(threads)?;
    Ok(())
}

// Lists the threads that wait for one of the goals.
fn list_all_waiting(
    flat: &Flat,
    ordered: &[Thread],
    goals: &[u32],
    part: &mut Vec<Thread>,
) -> Result<(), AllocError>
    requires order { IsInOrder flat.now ordered.now }
    requires empty { part.old.items ≡ [] }
    ensures { OnOk result ((th : AThread) →
        Contains part.new.items th ↔
        (Contains ordered.now th ×
        ((x : ℕ) × (next flat.now th ≡ Some x) × Contains goals.now x))) }
{
    for goal in goals {
        list_waiting(flat, ordered, *goal, part)?;
    }
    Ok(())
}

fn sort(part: &mut Vec<Thread>) -> Result<(), AllocError>
    ensures { (th : AThread) → Contains part.new.items th ↔ Contains part.old.items th }
{
    part.sort()
}

// Lists the part of a row for a symbol.
fn list_part(
    alloc: Global,
    flat: &Flat,
    row: &[Thread],
    ordered: &[Thread],
    symbol: u32,
) -> Result<Vec<Thread>, AllocError>
    requires rules { (th : AThread) → Contains row.now th → IsRule flat.now th.rule }
    requires order { IsOrderOf flat.now row.now ordered.now }
    ensures inside { IfOk result (λ part. (th : AThread) → Contains part.items th →
        Contains row.now th) }
    ensures part { IfOk result (λ part. IsPartList flat.now row.now part.items symbol) }
{
    let mut goals = vec![in alloc; symbol]?;
    close_goals(flat, row, ordered, &mut goals)?;
    let mut part = Vec::new(alloc);
    list_all_waiting(flat, ordered, &goals, &mut part)?;
    sort(&mut part)?;
    Ok(part)
}

// The number of the part of a row for a symbol.
fn part_for(
    alloc: Global,
    flat: &Flat,
    parts: &mut Lists,
    row: &[Thread],
    ordered: &[Thread],
    symbol: u32,
) -> Result<usize, AllocError>
    requires parts { AreParts flat.now parts.old }
    requires row { AreThreads flat.now (length parts.old) row.now }
    requires order { IsOrderOf flat.now row.now ordered.now }
    ensures grown { IsGrown parts.old parts.new }
    ensures parts { AreParts flat.now parts.new }
    ensures there { IfOk result (λ s. s < length parts.new) }
    ensures part { IfOk result (λ s. (later : List (List AThread)) → IsGrown parts.new later →
        IsPartIn flat.now later (Waiting flat.now row.now) s symbol) }
{
    let part = list_part(alloc, flat, row, ordered, symbol)?;
    let number = parts.number(part)?;
    Ok(number)
}

/// The label of what begins in a row and has this left side.
pub fn label_for(
    alloc: Global,
    flat: &Flat,
    parts: &mut Lists,
    row: &[Thread],
    ordered: &[Thread],
    symbol: u32,
) -> Result<Label, AllocError>
    requires parts { AreParts flat.now parts.old }
    requires row { AreThreads flat.now (length parts.old) row.now }
    requires order { IsOrderOf flat.now row.now ordered.now }
    ensures grown { IsGrown parts.old parts.new }
    ensures parts { AreParts flat.now parts.new }
    ensures there { IfOk result (λ l. l.part < length parts.new) }
    ensures folds { IfOk result (λ l. (later : List (List AThread)) → IsGrown parts.new later →
        FoldsIn flat.now later (Waiting flat.now row.now) symbol l) }
{
    match fold_ordered(flat, row, ordered, symbol) {
        Folded::Up(label) => Ok(label),
        Folded::Stays(goal) => {
            let part = part_for(alloc, flat, parts, row, ordered, goal)?;
            Ok(Label { part, goal })
        }
    }
}
