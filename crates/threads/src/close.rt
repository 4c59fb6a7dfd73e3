//! Sets that are closed: what a thread leads to is there too.
ghost use Rattle.std.specs.Prelude.{◌≡◌, ℕ, ◌<◌, ◌↔◌, ◌⊎◌, ◌+◌, ◌^◌, ◌≤◌, List, length, IfOk, OnOk, Contains, Some};
ghost use Rattle.recognizer_model.specs.Flat.{IsRule, IsNullable};
ghost use Rattle.recognizer_model.specs.declared.thread.Thread.{Thread as AThread};
ghost use Rattle.recognizer_model.specs.Threads.{next, begun, step as thread_after, Waiting, PartAt};
ghost use Rattle.threads.specs.Lists.{list_at, IsThread, AreThreads, AreParts};
ghost use Rattle.threads.specs.Steps.{FoldsIn, LeavesIn, IsClosedIn};
ghost use Rattle.threads.specs.Closing.{Grows, Adds, IsBegun, AreCompleted, IsFollowed};

use crate::fold::{Folded, fold, next_symbol, waits_for};
use crate::lists::Lists;
use crate::scan::advanced;
use grammar_core::Flat;
use indexmap::IndexSet;
use recognizer_model::{Label, Thread};
use std::alloc::AllocFailed;

// What a symbol folds to in a part, which is a part of itself.
fn fold_in_part(flat: &Flat, parts: &Lists, part: usize, symbol: u32) -> Label
    requires part { part < length parts.now }
    requires parts { AreParts flat.now parts.now }
    ensures there { result.part < length parts.now }
    ensures folds { FoldsIn flat.now parts.now (PartAt flat.now parts.now part) symbol result }
{
    match fold(flat, parts.list(part), symbol) {
        Folded::Up(label) => label,
        Folded::Stays(goal) => Label { part, goal },
    }
}

// The label of a thread of a part after the place.
fn label_in_part(flat: &Flat, parts: &Lists, part: usize, thread: Thread) -> Label
    requires part { part < length parts.now }
    requires parts { AreParts flat.now parts.now }
    requires thread { IsThread flat.now (length parts.now) thread }
    ensures there { result.part < length parts.now }
    ensures leaves { LeavesIn flat.now parts.now (PartAt flat.now parts.now part) thread result }
{
    match thread.label {
        Some(label) => label,
        None => fold_in_part(flat, parts, part, flat.lhs(thread.rule)),
    }
}

// Lists what the completion of a label's goal leads to, of the label's part.
fn list_completed(
    flat: &Flat,
    parts: &Lists,
    label: Label,
    part: &[Thread],
    next: &mut Vec<Thread>,
) -> Result<(), AllocFailed<Thread>>
    requires label { label.part < length parts.now }
    requires parts { AreParts flat.now parts.now }
    requires part { part.now ≡ list_at parts.now label.part }
    ensures { OnOk result (AreCompleted flat.now parts.now label next.old.items next.new.items) }
{
    for thread in part {
        if waits_for(flat, *thread, label.goal) {
            let behind = label_in_part(flat, parts, label.part, *thread);
            next.push(advanced(*thread, Some(behind)))?;
        }
    }
    Ok(())
}

// Lists the rules from the first one up to the end, at their begin.
fn list_rules(first: u32, end: u32, next: &mut Vec<Thread>) -> Result<(), AllocFailed<Thread>>
    ensures { OnOk result ((other : AThread) → Contains next.new.items other ↔
        (Contains next.old.items other ⊎ ((r : ℕ) × (first ≤ r) × (r < end) × (other ≡ begun r)))) }
{
    for rule in first..end {
        next.push(Thread {
            rule,
            dot: 0,
            label: None,
        })?;
    }
    Ok(())
}

// Lists the rules of a symbol, at their begin.
fn list_predicted(
    flat: &Flat,
    symbol: u32,
    next: &mut Vec<Thread>,
) -> Result<(), AllocFailed<Thread>>
    ensures { OnOk result ((other : AThread) →
        Contains next.new.items other ↔
        (Contains next.old.items other ⊎ IsBegun flat.now symbol other)) }
{
    let rules = flat.rules_of(symbol);
    list_rules(rules.start, rules.end, next)
}

// Lists what follows from a thread that waits for the symbol.
fn list_begun(
    flat: &Flat,
    thread: Thread,
    symbol: u32,
    next: &mut Vec<Thread>,
) -> Result<(), AllocFailed<Thread>>
    requires fits { thread.dot + 1 < 2 ^ 32 }
    requires symbol { symbol < length flat.now.symbols }
    ensures { OnOk result ((other : AThread) → Contains next.new.items other ↔
        ((Contains next.old.items other ⊎ IsBegun flat.now symbol other) ⊎
        (IsNullable flat.now symbol × (other ≡ thread_after thread thread.label)))) }
{
    list_predicted(flat, symbol, next)?;
    if flat.nullable(symbol) {
        next.push(advanced(thread, thread.label))?;
    }
    Ok(())
}

// Lists what follows from a thread in its set.
fn list_next(
    flat: &Flat,
    parts: &Lists,
    thread: Thread,
    next: &mut Vec<Thread>,
) -> Result<(), AllocFailed<Thread>>
    requires thread { IsThread flat.now (length parts.now) thread }
    requires parts { AreParts flat.now parts.now }
    ensures { OnOk result (IsFollowed flat.now parts.now thread next.new.items) }
{
    next.clear();
    match next_symbol(flat, thread) {
        Some(x) => list_begun(flat, thread, x, next),
        None => match thread.label {
            Some(label) => list_completed(flat, parts, label, parts.list(label.part), next),
            None => Ok(()),
        },
    }
}

fn add_thread(set: &mut IndexSet<Thread>, thread: Thread) -> Result<(), AllocFailed<Thread>>
    ensures { OnOk result (Adds set.old.keys set.new.keys thread) }
{
    set.insert(thread)?;
    Ok(())
}

/// Adds the threads that are not there yet.
pub fn add_threads(
    set: &mut IndexSet<Thread>,
    threads: &[Thread],
) -> Result<(), AllocFailed<Thread>>
    ensures { OnOk result (Grows set.old.keys set.new.keys threads.now) }
{
    for thread in threads {
        add_thread(set, *thread)?;
    }
    Ok(())
}

/// Adds whatever the threads of the set lead to. Makes no part.
pub fn close(
    flat: &Flat,
    parts: &Lists,
    set: &mut IndexSet<Thread>,
    next: &mut Vec<Thread>,
) -> Result<(), AllocFailed<Thread>>
    requires set { AreThreads flat.now (length parts.now) set.old.keys }
    requires parts { AreParts flat.now parts.now }
    ensures threads { OnOk result (AreThreads flat.now (length parts.now) set.new.keys) }
    ensures begins { OnOk result ((th : AThread) → Contains set.old.keys th →
        Contains set.new.keys th) }
    ensures closed { OnOk result (IsClosedIn flat.now parts.now set.old.keys set.new.keys) }
{
    for k in 0..usize::MAX {
        let Some(thread) = set.get_index(k).copied() else {
            return Ok(());
        };
        list_next(flat, parts, thread, next)?;
        add_threads(set, next)?;
    }
    let _len = set.len();
    Ok(())
}
