//! The rows of a text, one after another.
ghost use Rattle.std.specs.Prelude.{◌≡◌, ℕ, ◌<◌, ◌↔◌, ◌⊎◌, [], List, length, IsTrue, OnOk, Contains, Some};
ghost use Rattle.recognizer_model.specs.Flat.{IsRule};
ghost use Rattle.recognizer_model.specs.declared.thread.Thread.{Thread as AThread};
ghost use Rattle.recognizer_model.specs.Threads.{next, begun, IsChosen, IsTopRule};
ghost use Rattle.threads.specs.Lists.{IsGrown, AreThreads, AreParts};
ghost use Rattle.threads.specs.Steps.{IsReadBy, IsClosedIn, Keeps, IsNext, IsBegin};

use crate::close::{add_threads, close};
use crate::fold::{is_start, next_symbol};
use crate::lists::Lists;
use crate::scan::scan;
use grammar_core::{Flat, SymbolId};
use indexmap::IndexSet;
use recognizer_model::Thread;
use std::alloc::{AllocError, Global};

// Whether a row keeps the thread: it waits, or is of a start.
fn is_kept(flat: &Flat, thread: Thread) -> bool
    requires { IsRule flat.now thread.rule }
    ensures { IsTrue result ↔
        (((x : ℕ) × (next flat.now thread ≡ Some x)) ⊎ IsTopRule flat.now thread.rule) }
{
    next_symbol(flat, thread).is_some() || is_start(flat, thread.rule)
}

// Lists those that a row keeps.
fn list_kept(flat: &Flat, set: &[Thread], row: &mut Vec<Thread>) -> Result<(), AllocError>
    requires { (th : AThread) → Contains set.now th → IsRule flat.now th.rule }
    ensures { OnOk result (Keeps flat.now set.now row.new.items) }
{
    row.clear();
    for thread in set {
        if is_kept(flat, *thread) {
            row.push(*thread)?;
        }
    }
    Ok(())
}

fn sort(row: &mut Vec<Thread>) -> Result<(), AllocError>
    ensures { (th : AThread) → Contains row.new.items th ↔ Contains row.old.items th }
{
    row.sort()
}

// Closes a set with these threads, and lists those that a row keeps, in order. The set is empty before.
fn list_closed(
    flat: &Flat,
    parts: &Lists,
    seeds: &[Thread],
    set: &mut IndexSet<Thread>,
    row: &mut Vec<Thread>,
) -> Result<(), AllocError>
    requires parts { AreParts flat.now parts.now }
    requires seeds { AreThreads flat.now (length parts.now) seeds.now }
    requires empty { set.old.keys ≡ [] }
    ensures threads { OnOk result (AreThreads flat.now (length parts.now) row.new.items) }
    ensures closed { OnOk result ((set : List AThread) ×
        IsClosedIn flat.now parts.now seeds.now set ×
        ((th : AThread) → Contains seeds.now th → Contains set th) ×
        Keeps flat.now set row.new.items) }
{
    add_threads(set, seeds)?;
    close(flat, parts, set, row)?;
    list_kept(flat, set.as_slice(), row)?;
    sort(row)
}

// Closes a set that begins with these threads, and lists those that a row keeps, in order.
fn row_of(
    alloc: Global,
    flat: &Flat,
    parts: &Lists,
    seeds: &[Thread],
    row: &mut Vec<Thread>,
) -> Result<(), AllocError>
    requires parts { AreParts flat.now parts.now }
    requires seeds { AreThreads flat.now (length parts.now) seeds.now }
    ensures threads { OnOk result (AreThreads flat.now (length parts.now) row.new.items) }
    ensures closed { OnOk result ((set : List AThread) ×
        IsClosedIn flat.now parts.now seeds.now set ×
        ((th : AThread) → Contains seeds.now th → Contains set th) ×
        Keeps flat.now set row.new.items) }
{
    let mut set = IndexSet::new(alloc);
    let listed = list_closed(flat, parts, seeds, &mut set, row);
    drop(set);
    listed
}

// Lists the rules of starts, at their begin.
fn list_starts(flat: &Flat, starts: &[u32], seeds: &mut Vec<Thread>) -> Result<(), AllocError>
    requires { (k : ℕ) → Contains starts.now k → k < length flat.now.tops }
    ensures { OnOk result ((th : AThread) →
        Contains seeds.new.items th ↔ ((r : ℕ) × IsChosen flat.now starts.now r × (th ≡ begun r))) }
{
    seeds.clear();
    for start in starts {
        seeds.push(Thread {
            rule: flat.top(*start as usize),
            dot: 0,
            label: None,
        })?;
    }
    Ok(())
}

/// Makes the row of no text, for some starts.
pub fn first_row(
    alloc: Global,
    flat: &Flat,
    parts: &Lists,
    starts: &[u32],
    row: &mut Vec<Thread>,
) -> Result<(), AllocError>
    requires parts { AreParts flat.now parts.now }
    requires starts { (k : ℕ) → Contains starts.now k → k < length flat.now.tops }
    ensures threads { OnOk result (AreThreads flat.now (length parts.now) row.new.items) }
    ensures begins { OnOk result ((set : List AThread) ×
        IsBegin flat.now parts.now starts.now set row.new.items) }
{
    flat.known();
    let mut seeds = Vec::new(alloc);
    list_starts(flat, starts, &mut seeds)?;
    row_of(alloc, flat, parts, &seeds, row)
}

/// Makes the row that another leads to by terminals. Parts that are new go last.
pub fn next_row(
    alloc: Global,
    flat: &Flat,
    parts: &mut Lists,
    row: &[Thread],
    terminals: &[SymbolId],
    new: &mut Vec<Thread>,
) -> Result<(), AllocError>
    requires parts { AreParts flat.now parts.old }
    requires row { AreThreads flat.now (length parts.old) row.now }
    ensures grown { IsGrown parts.old parts.new }
    ensures parts { AreParts flat.now parts.new }
    ensures threads { OnOk result (AreThreads flat.now (length parts.new) new.new.items) }
    ensures steps { OnOk result ((set : List AThread) ×
        IsNext flat.now parts.new (IsReadBy flat.now terminals.now) row.now set new.new.items) }
{
    let mut seeds = Vec::new(alloc);
    scan(alloc, flat, parts, row, terminals, &mut seeds)?;
    row_of(alloc, flat, parts, &seeds, new)
}
