//! The threads of a row in the order of what they wait for, so that those that wait for a symbol are found by binary search.
ghost use Rattle.std.specs.Prelude.{◌≡◌, ℕ, ◌<◌, ◌≤◌, ◌-◌, ◌↔◌, length, take, drop, slice_index_or, Some, IfOk, Contains};
ghost use Rattle.recognizer_model.specs.declared.thread.Thread.{Thread as AThread};
ghost use Rattle.recognizer_model.specs.Threads.{next};
ghost use Rattle.threads.specs.Order.{awaited, IsInOrder, IsOrderOf};

use grammar_core::Flat;
use recognizer_model::Thread;
use std::alloc::{AllocError, Global};

// What threads that wait for nothing have in place of a symbol.
const PAST_SYMBOLS: u64 = 4_294_967_296;

fn awaited_by(flat: &Flat, thread: Thread) -> u64
    ensures { result ≡ awaited flat.now thread }
{
    match flat.part(thread.rule, thread.dot) {
        Some(symbol) => symbol as u64,
        None => PAST_SYMBOLS,
    }
}

fn sort(flat: &Flat, threads: &mut Vec<Thread>)
    ensures order { IsInOrder flat.now threads.new.items }
    ensures same { (th : AThread) → Contains threads.new.items th ↔ Contains threads.old.items th }
{
    threads.sort_unstable_by_key(|thread| awaited_by(flat, *thread));
}

/// Lists the threads of a row in that order.
pub fn list_ordered(alloc: Global, flat: &Flat, row: &[Thread]) -> Result<Vec<Thread>, AllocError>
    ensures { IfOk result (λ ordered. IsOrderOf flat.now row.now ordered.items) }
{
    let mut ordered = Vec::new(alloc);
    ordered.extend_from_slice(row)?;
    sort(flat, &mut ordered);
    Ok(ordered)
}

// How many threads wait for a symbol of a lower number.
fn below(flat: &Flat, ordered: &[Thread], symbol: u64) -> usize
    requires { IsInOrder flat.now ordered.now }
    ensures bound { result ≤ length ordered.now }
    ensures below { (k : ℕ) (d : AThread) → k < result →
        awaited flat.now (slice_index_or ordered.now k d) < symbol }
    ensures above { (k : ℕ) (d : AThread) → result ≤ k → k < length ordered.now →
        symbol ≤ awaited flat.now (slice_index_or ordered.now k d) }
{
    ordered.partition_point(|thread| awaited_by(flat, *thread) < symbol)
}

fn between(threads: &[Thread], start: usize, end: usize) -> &[Thread]
    requires order { start ≤ end }
    requires bound { end ≤ length threads.now }
    ensures { result.now ≡ take (end - start) (drop start threads.now) }
{
    &threads[start..end]
}

/// The threads that wait for a symbol.
pub fn waiting<'r>(flat: &Flat, ordered: &'r [Thread], symbol: u32) -> &'r [Thread]
    requires { IsInOrder flat.now ordered.now }
    ensures { (th : AThread) →
        Contains result.now th ↔ (Contains ordered.now th × (next flat.now th ≡ Some symbol)) }
{
    let low = symbol as u64;
    let start = below(flat, ordered, low);
    let end = below(flat, ordered, low + 1);
    between(ordered, start, end)
}
