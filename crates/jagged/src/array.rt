//! Lists in one array, with the places where each ends.
ghost use Rattle.std.specs.Prelude.{◌≡◌, ◌<◌, ◌≤◌, ◌-◌, ◌+◌, ◌++◌, ◌∷◌, [], length, take, drop, slice_index_or, IfOk, OnOk, OnErr};
ghost use Rattle.jagged.specs.Rows.{row_at, last_end};

use std::alloc::{AllocError, Global};
use std::marker::Model;

/// Lists, end to end. It is seen as the lists, which are its rows.
#[derive(Drop)]
pub struct Jagged<T> {
    items: Vec<T>,
    // where each row ends
    ends: Vec<u32>,
}

impl<T> Model for Jagged<T> {
    ghost use Rattle.std.specs.Prelude.{List, length};
    ghost use Rattle.jagged.specs.Rows.{cut, AreEnds};

    ghost Value = { List (List T) };

    ghost view = { λ r. cut 0 r.ends.items r.items.items };

    ghost invariant = { λ r. AreEnds 0 r.ends.items (length r.items.items) };
}

impl<T: Copy> Jagged<T> {
    /// No rows.
    pub fn new(alloc: Global) -> Jagged<T>
        ensures { result ≡ [] }
    {
        Jagged {
            items: Vec::new(alloc),
            ends: Vec::new(alloc),
        }
    }

    /// How many rows there are.
    pub fn len(&self) -> usize
        ensures { result ≡ length self.now }
    {
        self.ends.len()
    }

    /// The row at this place.
    pub fn row(&self, k: usize) -> &[T]
        requires { k < length self.now }
        ensures { result.now ≡ row_at self.now k }
    {
        let start = end_before(&self.ends, k);
        let end = end_of(&self.ends, k);
        between(&self.items, start as usize, end as usize)
    }

    /// Lets all rows go but the first.
    pub fn keep_first(&mut self)
        ensures { self.new ≡ take 1 self.old }
    {
        self.ends.truncate(1);
    }

    /// One more row, if 32 bits can tell where it ends.
    pub fn push(&mut self, row: &[T]) -> Result<(), AllocError>
        ensures ok { OnOk result (self.new ≡ self.old ++ row.now ∷ []) }
        ensures err { OnErr result (self.new ≡ self.old) }
    {
        let last = last(&self.ends);
        let end = end_behind(last, row)?;
        put(&mut self.items, last as usize, row)?;
        self.ends.push(end)?;
        Ok(())
    }
}

// Puts a row after the first items.
fn put<T: Copy>(items: &mut Vec<T>, first: usize, row: &[T]) -> Result<(), AllocError>
    requires { first ≤ length items.old.items }
    ensures ok { OnOk result (items.new.items ≡ take first items.old.items ++ row.now) }
    ensures long { first ≤ length items.new.items }
    ensures same { take first items.new.items ≡ take first items.old.items }
{
    items.truncate(first);
    items.extend_from_slice(row)?;
    Ok(())
}

// Where a row ends that stands after the last one.
fn end_behind<T>(last: u32, row: &[T]) -> Result<u32, AllocError>
    ensures ok { IfOk result (λ end. end ≡ last + length row.now) }
    ensures err { OnErr result (4294967296 ≤ last + length row.now) }
{
    let count = row.len();
    if count < 4_294_967_296 && last as usize + count < 4_294_967_296 {
        Ok((last as usize + count) as u32)
    } else {
        Err(AllocError)
    }
}

// Where a row begins.
fn end_before(ends: &[u32], k: usize) -> u32
    requires { k < length ends.now }
    ensures { result ≡ slice_index_or (0 ∷ ends.now) k 0 }
{
    if k == 0 { 0 } else { ends[k - 1] }
}

fn end_of(ends: &[u32], k: usize) -> u32
    requires { k < length ends.now }
    ensures { result ≡ slice_index_or ends.now k 0 }
{
    ends[k]
}

// Where the last row ends.
fn last(ends: &[u32]) -> u32
    ensures { result ≡ last_end 0 ends.now }
{
    let count = ends.len();
    if count == 0 { 0 } else { ends[count - 1] }
}

fn between<T>(items: &[T], start: usize, end: usize) -> &[T]
    requires order { start ≤ end }
    requires bound { end ≤ length items.now }
    ensures { result.now ≡ take (end - start) (drop start items.now) }
{
    &items[start..end]
}
