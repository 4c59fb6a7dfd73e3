//! What the states tell: whether a start matches, and whether anything goes on.
ghost use Rattle.std.specs.Prelude.{◌≡◌, ℕ, ◌<◌, ◌↔◌, ◌⊎◌, ◌++◌, ◌∷◌, [], List, length, Some, IsTrue, IfOk, Contains};
ghost use Rattle.recognizer_model.specs.declared.thread.Label.{Label as ALabel};
ghost use Rattle.recognizer_model.specs.declared.thread.Thread.{Thread as AThread};
ghost use Rattle.recognizer_model.specs.Flat.{IsRule};
ghost use Rattle.recognizer_model.specs.Threads.{next, IsTopRule, Waiting};
ghost use Rattle.threads.specs.Lists.{list_at};
ghost use Rattle.lexer.specs.Machines.{IsMatch, IsKindOf, AreKinds};

use grammar_core::Flat;
use std::alloc::AllocError;
use threads::{Lists, Thread, is_start, next_symbol};

/// What a state says of the text read so far.
#[derive(Clone, Copy)]
pub struct Kind {
    /// Whether a start matches here.
    pub matches: bool,
    /// Whether a thread waits.
    pub goes: bool,
}

/// Whether the thread is a start's, done after a character or more.
pub fn is_match(flat: &Flat, thread: Thread) -> bool
    requires { IsRule flat.now thread.rule }
    ensures { IsTrue result ↔ IsMatch flat.now thread }
{
    thread.dot == 1 && thread.label.is_some() && is_start(flat, thread.rule)
}

// Whether a start matches here.
fn matches(flat: &Flat, row: &[Thread]) -> bool
    requires { (th : AThread) → Contains row.now th → IsRule flat.now th.rule }
    ensures { IsTrue result ↔ ((th : AThread) × Contains row.now th × IsMatch flat.now th) }
{
    for thread in row {
        if is_match(flat, *thread) {
            return true;
        }
    }
    false
}

fn waits(flat: &Flat, thread: Thread) -> bool
    requires { IsRule flat.now thread.rule }
    ensures { IsTrue result ↔ ((x : ℕ) × (next flat.now thread ≡ Some x)) }
{
    next_symbol(flat, thread).is_some()
}

// Whether a thread waits.
fn goes(flat: &Flat, row: &[Thread]) -> bool
    requires { (th : AThread) → Contains row.now th → IsRule flat.now th.rule }
    ensures { IsTrue result ↔ ((th : AThread) × Waiting flat.now row.now th) }
{
    for thread in row {
        if waits(flat, *thread) {
            return true;
        }
    }
    false
}

fn kind_of(flat: &Flat, row: &[Thread]) -> Kind
    requires { (th : AThread) → Contains row.now th → IsRule flat.now th.rule }
    ensures { IsKindOf flat.now row.now result }
{
    Kind {
        matches: matches(flat, row),
        goes: goes(flat, row),
    }
}

/// The number of a row, which goes last with its kind where it is new.
pub fn add_row(
    flat: &Flat,
    rows: &mut Lists,
    kinds: &mut Vec<Kind>,
    row: Vec<Thread>,
) -> Result<usize, AllocError>
    requires kinds { AreKinds flat.now rows.old kinds.old.items }
    requires row { (th : AThread) → Contains row.items th → IsRule flat.now th.rule }
    ensures added { (rows.new ≡ rows.old) ⊎ (rows.new ≡ rows.old ++ row.items ∷ []) }
    ensures kinds { AreKinds flat.now rows.new kinds.new.items }
    ensures found { IfOk result (λ k. k < length rows.new) }
    ensures list { IfOk result (λ k. list_at rows.new k ≡ row.items) }
{
    let kind = kind_of(flat, &row);
    kinds.push(kind)?;
    let number = rows.number(row);
    kinds.truncate(rows.count());
    number
}
