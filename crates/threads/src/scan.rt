//! What a row leads to by terminals.
ghost use Rattle.std.specs.Prelude.{◌≡◌, ℕ, ◌<◌, ◌↔◌, ◌+◌, ◌^◌, List, length, IsTrue, IfOk, OnOk, Contains, Some, None};
ghost use Rattle.recognizer_model.specs.Flat.{IsRule};
ghost use Rattle.recognizer_model.specs.declared.thread.Thread.{Thread as AThread};
ghost use Rattle.recognizer_model.specs.Threads.{next, step as thread_after, Waiting};
ghost use Rattle.threads.specs.Lists.{IsGrown, IsThread, AreThreads, AreParts};
ghost use Rattle.threads.specs.Order.{IsOrderOf};
ghost use Rattle.threads.specs.Steps.{LeavesIn, IsReadBy, AreSeeds};

use crate::fold::next_symbol;
use crate::lists::Lists;
use crate::order::list_ordered;
use crate::part::label_for;
use crate::terminals::{Terminals, terminals_of};
use grammar_core::{Flat, SymbolId};
use recognizer_model::{FlatSymbol, Label, Thread};
use std::alloc::{AllocError, Global};

/// The thread with its dot advanced.
pub fn advanced(thread: Thread, label: Option<Label>) -> Thread
    requires { thread.dot + 1 < 2 ^ 32 }
    ensures { result ≡ thread_after thread label }
{
    Thread {
        rule: thread.rule,
        dot: thread.dot + 1,
        label,
    }
}

// Whether the thread waits for one of the terminals.
fn is_read(flat: &Flat, thread: Thread, terminals: &Terminals<'_>) -> bool
    requires { IsRule flat.now thread.rule }
    ensures read { IsTrue result ↔
        ((x : ℕ) × (next flat.now thread ≡ Some x) × IsReadBy flat.now terminals.now x) }
    ensures fits { IsTrue result → thread.dot + 1 < 2 ^ 32 }
{
    match next_symbol(flat, thread) {
        None => false,
        Some(x) => match flat.symbol(x) {
            FlatSymbol::Terminal(t) => terminals.has(t),
            _ => false,
        },
    }
}

// The label of a thread of a row after the place.
fn label_behind(
    alloc: Global,
    flat: &Flat,
    parts: &mut Lists,
    row: &[Thread],
    ordered: &[Thread],
    thread: Thread,
) -> Result<Label, AllocError>
    requires parts { AreParts flat.now parts.old }
    requires row { AreThreads flat.now (length parts.old) row.now }
    requires thread { IsThread flat.now (length parts.old) thread }
    requires order { thread.label ≡ None → IsOrderOf flat.now row.now ordered.now }
    ensures grown { IsGrown parts.old parts.new }
    ensures parts { AreParts flat.now parts.new }
    ensures there { IfOk result (λ l. l.part < length parts.new) }
    ensures leaves { IfOk result (λ l. (later : List (List AThread)) → IsGrown parts.new later →
        LeavesIn flat.now later (Waiting flat.now row.now) thread l) }
{
    match thread.label {
        Some(label) => Ok(label),
        None => {
            let label = label_for(alloc, flat, parts, row, ordered, flat.lhs(thread.rule))?;
            Ok(label)
        }
    }
}

// Whether a thread begins in its row and waits for one of the terminals.
fn is_read_here(flat: &Flat, thread: Thread, terminals: &Terminals<'_>) -> bool
    requires { IsRule flat.now thread.rule }
    ensures { ¬ IsTrue result → (x : ℕ) → thread.label ≡ None → next flat.now thread ≡ Some x →
        ¬ IsReadBy flat.now terminals.now x }
{
    thread.label.is_none() && is_read(flat, thread, terminals)
}

// Whether a thread that begins in a row waits for one of the terminals.
fn is_read_at_begin(flat: &Flat, row: &[Thread], terminals: &Terminals<'_>) -> bool
    requires { (th : AThread) → Contains row.now th → IsRule flat.now th.rule }
    ensures { ¬ IsTrue result → (th : AThread) (x : ℕ) → Contains row.now th → th.label ≡ None →
        next flat.now th ≡ Some x → ¬ IsReadBy flat.now terminals.now x }
{
    for thread in row {
        if is_read_here(flat, *thread, terminals) {
            return true;
        }
    }
    false
}

// Lists a row in order, if a thread that begins in it is read.
fn list_ordered_for(
    alloc: Global,
    flat: &Flat,
    row: &[Thread],
    terminals: &Terminals<'_>,
) -> Result<Vec<Thread>, AllocError>
    requires { (th : AThread) → Contains row.now th → IsRule flat.now th.rule }
    ensures { IfOk result (λ ordered. (th : AThread) (x : ℕ) → Contains row.now th →
        th.label ≡ None → next flat.now th ≡ Some x → IsReadBy flat.now terminals.now x →
        IsOrderOf flat.now row.now ordered.items) }
{
    if !is_read_at_begin(flat, row, terminals) {
        return Ok(Vec::new(alloc));
    }
    let ordered = list_ordered(alloc, flat, row)?;
    Ok(ordered)
}

// Lists what the threads of a row lead to, with the row in order for those that begin in it.
fn list_seeds(
    alloc: Global,
    flat: &Flat,
    parts: &mut Lists,
    row: &[Thread],
    ordered: &[Thread],
    terminals: &Terminals<'_>,
    seeds: &mut Vec<Thread>,
) -> Result<(), AllocError>
    requires parts { AreParts flat.now parts.old }
    requires row { AreThreads flat.now (length parts.old) row.now }
    requires order { (th : AThread) (x : ℕ) → Contains row.now th → th.label ≡ None →
        next flat.now th ≡ Some x → IsReadBy flat.now terminals.now x →
        IsOrderOf flat.now row.now ordered.now }
    ensures grown { IsGrown parts.old parts.new }
    ensures parts { AreParts flat.now parts.new }
    ensures threads { OnOk result (AreThreads flat.now (length parts.new) seeds.new.items) }
    ensures seeds { OnOk result ((later : List (List AThread)) → IsGrown parts.new later →
        AreSeeds flat.now later (IsReadBy flat.now terminals.now) row.now row.now seeds.new.items) }
{
    seeds.clear();
    for thread in row {
        if is_read(flat, *thread, terminals) {
            let label = label_behind(alloc, flat, parts, row, ordered, *thread)?;
            seeds.push(advanced(*thread, Some(label)))?;
        }
    }
    Ok(())
}

// Lists what a row leads to by terminals.
fn scan_by(
    alloc: Global,
    flat: &Flat,
    parts: &mut Lists,
    row: &[Thread],
    terminals: &Terminals<'_>,
    seeds: &mut Vec<Thread>,
) -> Result<(), AllocError>
    requires parts { AreParts flat.now parts.old }
    requires row { AreThreads flat.now (length parts.old) row.now }
    ensures grown { IsGrown parts.old parts.new }
    ensures parts { AreParts flat.now parts.new }
    ensures threads { OnOk result (AreThreads flat.now (length parts.new) seeds.new.items) }
    ensures seeds { OnOk result ((later : List (List AThread)) → IsGrown parts.new later →
        AreSeeds flat.now later (IsReadBy flat.now terminals.now) row.now row.now seeds.new.items) }
{
    let ordered = list_ordered_for(alloc, flat, row, terminals)?;
    let listed = list_seeds(alloc, flat, parts, row, &ordered, terminals, seeds);
    drop(ordered);
    listed
}

/// Lists what a row leads to by terminals.
pub fn scan(
    alloc: Global,
    flat: &Flat,
    parts: &mut Lists,
    row: &[Thread],
    terminals: &[SymbolId],
    seeds: &mut Vec<Thread>,
) -> Result<(), AllocError>
    requires parts { AreParts flat.now parts.old }
    requires row { AreThreads flat.now (length parts.old) row.now }
    ensures grown { IsGrown parts.old parts.new }
    ensures parts { AreParts flat.now parts.new }
    ensures threads { OnOk result (AreThreads flat.now (length parts.new) seeds.new.items) }
    ensures seeds { OnOk result ((later : List (List AThread)) → IsGrown parts.new later →
        AreSeeds flat.now later (IsReadBy flat.now terminals.now) row.now row.now seeds.new.items) }
{
    let terminals = terminals_of(terminals);
    scan_by(alloc, flat, parts, row, &terminals, seeds)
}
