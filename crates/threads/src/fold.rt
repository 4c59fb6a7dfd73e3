//! What may be waited for in place of a symbol.
ghost use Rattle.std.specs.Prelude.{◌≡◌, ◌<◌, ◌+◌, ◌^◌, ◌↔◌, List, length, Some, IfSome, IsTrue, Contains};
ghost use Rattle.recognizer_model.specs.Flat.{IsRule};
ghost use Rattle.recognizer_model.specs.declared.thread.Thread.{Thread as AThread};
ghost use Rattle.recognizer_model.specs.Threads.{next, IsDone, step, IsTopRule, Waiting};
ghost use Rattle.threads.specs.Steps.{IsLoneIn, IsFoldedTo, IsOfList};
ghost use Rattle.threads.specs.Folding.{IsOnly};
ghost use Rattle.threads.specs.Order.{IsOrderOf};

use crate::order::waiting;
use grammar_core::Flat;
use recognizer_model::{FlatSource, Label, Thread};

// How often a symbol is folded at most.
const FOLDS: u32 = 64;

/// A label, or a symbol that is still waited for in the same list.
#[derive(Clone, Copy)]
pub enum Folded {
    Up(Label),
    Stays(u32),
}

/// The symbol after the dot.
pub fn next_symbol(flat: &Flat, thread: Thread) -> Option<u32>
    requires { IsRule flat.now thread.rule }
    ensures value { result ≡ next flat.now thread }
    ensures fits { IfSome result (λ _. thread.dot + 1 < 2 ^ 32) }
    ensures symbol { IfSome result (λ x. x < length flat.now.symbols) }
{
    flat.known();
    flat.part(thread.rule, thread.dot)
}

/// Whether the thread waits for the symbol.
pub fn waits_for(flat: &Flat, thread: Thread, symbol: u32) -> bool
    requires { IsRule flat.now thread.rule }
    ensures waits { IsTrue result ↔ (next flat.now thread ≡ Some symbol) }
    ensures fits { IsTrue result → thread.dot + 1 < 2 ^ 32 }
{
    match next_symbol(flat, thread) {
        Some(x) => x == symbol,
        None => false,
    }
}

/// Whether the rule is that of a start.
pub fn is_start(flat: &Flat, rule: u32) -> bool
    requires { IsRule flat.now rule }
    ensures { IsTrue result ↔ IsTopRule flat.now rule }
{
    flat.known();
    match flat.origin_of(rule) {
        FlatSource::Top(_) => true,
        FlatSource::Written(_) => false,
    }
}

// Whether the thread waits for its last part.
fn is_last(flat: &Flat, thread: Thread) -> bool
    requires { IsRule flat.now thread.rule }
    ensures { IsTrue result ↔ IsDone flat.now (step thread thread.label) }
{
    thread.dot as usize + 1 == flat.rhs(thread.rule).len()
}

// The only thread that waits for the symbol.
fn only_waiting(flat: &Flat, row: &[Thread], symbol: u32) -> Option<Thread>
    requires { (th : AThread) → Contains row.now th → IsRule flat.now th.rule }
    ensures { IfSome result (IsOnly flat.now row.now symbol) }
{
    let mut found = None;
    for thread in row {
        if waits_for(flat, *thread, symbol) {
            if found.is_some() {
                return None;
            }
            found = Some(*thread);
        }
    }
    found
}

// The only thread that waits for the symbol, if that is its last part, and it is of no start.
fn lone(flat: &Flat, row: &[Thread], symbol: u32) -> Option<Thread>
    requires { (th : AThread) → Contains row.now th → IsRule flat.now th.rule }
    ensures lone { IfSome result (λ th. (parts : List (List AThread)) →
        IsLoneIn flat.now parts (Waiting flat.now row.now) symbol th) }
    ensures there { IfSome result (Contains row.now) }
{
    let thread = only_waiting(flat, row, symbol)?;
    if is_last(flat, thread) && !is_start(flat, thread.rule) {
        Some(thread)
    } else {
        None
    }
}

// The same, of a row in order.
fn lone_ordered(flat: &Flat, row: &[Thread], ordered: &[Thread], symbol: u32) -> Option<Thread>
    requires rules { (th : AThread) → Contains row.now th → IsRule flat.now th.rule }
    requires order { IsOrderOf flat.now row.now ordered.now }
    ensures lone { IfSome result (λ th. (parts : List (List AThread)) →
        IsLoneIn flat.now parts (Waiting flat.now row.now) symbol th) }
    ensures there { IfSome result (Contains row.now) }
{
    lone(flat, waiting(flat, ordered, symbol), symbol)
}

/// What may be waited for in place of the symbol, by the only threads that wait.
pub fn fold(flat: &Flat, row: &[Thread], symbol: u32) -> Folded
    requires { (th : AThread) → Contains row.now th → IsRule flat.now th.rule }
    ensures folded { IsFoldedTo flat.now (Waiting flat.now row.now) symbol result }
    ensures there { IsOfList row.now result }
{
    let mut goal = symbol;
    for _ in 0..FOLDS {
        let Some(thread) = lone(flat, row, goal) else {
            return Folded::Stays(goal);
        };
        match thread.label {
            Some(label) => return Folded::Up(label),
            None => goal = flat.lhs(thread.rule),
        }
    }
    Folded::Stays(goal)
}

/// The same, of a row in order.
pub fn fold_ordered(flat: &Flat, row: &[Thread], ordered: &[Thread], symbol: u32) -> Folded
    requires rules { (th : AThread) → Contains row.now th → IsRule flat.now th.rule }
    requires order { IsOrderOf flat.now row.now ordered.now }
    ensures folded { IsFoldedTo flat.now (Waiting flat.now row.now) symbol result }
    ensures there { IsOfList row.now result }
{
    let mut goal = symbol;
    for _ in 0..FOLDS {
        let Some(thread) = lone_ordered(flat, row, ordered, goal) else {
            return Folded::Stays(goal);
        };
        match thread.label {
            Some(label) => return Folded::Up(label),
            None => goal = flat.lhs(thread.rule),
        }
    }
    Folded::Stays(goal)
}
