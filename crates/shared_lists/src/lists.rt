//! Lists end to end, and what is counted of them.
ghost use Rattle.std.specs.Prelude.{◌≡◌, ℕ, ◌<◌, ◌≤◌, ◌-◌, ◌++◌, ◌∷◌, ◌↔◌, [], length, take, drop, Contains, OnOk, OnErr};
ghost use Rattle.jagged.specs.Rows.{row_at};
ghost use Rattle.kernels.specs.Slots.{Rises};
ghost use Rattle.shared_lists.specs.Counted.{AddsCounts};

use crate::counts::{count_by, list_counts};
use jagged::Jagged;
use std::alloc::{AllocError, Global};
use std::marker::Model;

// So many counts are kept, of all lists together.
const NOTED: u32 = 1_048_576;

/// Lists of numbers that rise. It is seen as the lists; one that is there stays.
#[derive(Drop)]
pub struct SharedLists {
    lists: Jagged<u32>,
    // how many numbers of a list are below each bound, of the first lists
    counts: Jagged<u32>,
    // how many counts more are kept
    room: u32,
    // what is counted last
    next: Vec<u32>,
}

impl Model for SharedLists {
    ghost use Rattle.std.specs.Prelude.{List, ℕ};
    ghost use Rattle.shared_lists.specs.Counted.{AreCounted};

    ghost Value = { List (List ℕ) };

    ghost view = { λ s. s.lists };

    ghost invariant = { λ s. AreCounted s.lists s.counts };
}

impl SharedLists {
    /// No lists.
    pub fn new(alloc: Global) -> SharedLists
        ensures { result ≡ [] }
    {
        SharedLists {
            lists: Jagged::new(alloc),
            counts: Jagged::new(alloc),
            room: NOTED,
            next: Vec::new(alloc),
        }
    }

    /// How many lists there are.
    pub fn len(&self) -> usize
        ensures { result ≡ length self.now }
    {
        self.lists.len()
    }

    /// The list at this place.
    pub fn list(&self, k: usize) -> &[u32]
        requires { k < length self.now }
        ensures { result.now ≡ row_at self.now k }
    {
        self.lists.row(k)
    }

    /// The numbers of a list from one bound on, below another.
    pub fn part(&self, k: usize, start: u32, end: u32) -> &[u32]
        requires there { k < length self.now }
        requires order { start ≤ end }
        ensures rises { Rises result.now }
        ensures exact { (n : ℕ) →
            Contains result.now n ↔ (Contains (row_at self.now k) n × (start ≤ n) × (n < end)) }
    {
        let list = self.lists.row(k);
        let counts = counts_of(&self.counts, k);
        let first = count_by(list, counts, start);
        let last = count_by(list, counts, end);
        between(list, first, last)
    }

    /// One more list. What is below each of so many bounds, from 0 on, is counted, as long as not too much is.
    pub fn push(&mut self, list: &[u32], bounds: u32) -> Result<(), AllocError>
        requires { Rises list.now }
        ensures ok { OnOk result (self.new ≡ self.old ++ list.now ∷ []) }
        ensures err { OnErr result (self.new ≡ self.old) }
    {
        let place = self.lists.len();
        self.lists.push(list)?;
        let _noted = note(
            &mut self.counts,
            &mut self.room,
            &mut self.next,
            place,
            list,
            bounds,
        );
        Ok(())
    }
}

// The counts of a list, or none.
fn counts_of(counts: &Jagged<u32>, k: usize) -> &[u32]
    ensures { result.now ≡ row_at counts.now k }
{
    if k < counts.len() { counts.row(k) } else { &[] }
}

// Notes the counts of the list at a place, if those of the lists before it are noted and there is room.
fn note(
    counts: &mut Jagged<u32>,
    room: &mut u32,
    next: &mut Vec<u32>,
    place: usize,
    list: &[u32],
    bounds: u32,
) -> Result<(), AllocError>
    requires { Rises list.now }
    ensures { AddsCounts place list.now counts.old counts.new }
{
    if counts.len() != place || bounds > *room {
        return Ok(());
    }
    list_counts(list, bounds, next)?;
    counts.push(next)?;
    *room -= bounds;
    Ok(())
}

fn between<T>(items: &[T], start: usize, end: usize) -> &[T]
    requires order { start ≤ end }
    requires bound { end ≤ length items.now }
    ensures { result.now ≡ take (end - start) (drop start items.now) }
{
    &items[start..end]
}
