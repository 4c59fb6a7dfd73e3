//! Where the ways on from completed symbols end, as far as it was noted.
ghost use Rattle.std.specs.Prelude.{◌≡◌, ℕ, ◌+◌, ◌-◌, ◌<◌, ◌++◌, ◌∷◌, [], length, take, slice_index_or, None, IfOk, OnOk, OnErr};
ghost use Rattle.leo_items.specs.Memo.{noted};
ghost use Rattle.leo_items.specs.Linked.{notes_of, AreLinked, IsLast};

use recognizer_model::{Item, Pair};
use std::alloc::{AllocError, Global};
use std::marker::Model;

// What was noted of a pair, and the number of the last note before it of the same set.
#[derive(Clone, Copy)]
struct Linked {
    pair: Pair,
    top: Item,
    earlier: u32,
}

/// An item for each pair that was noted.
#[derive(Drop)]
pub struct Memo {
    notes: Vec<Linked>,
    // by set, the number of its last note, counted from 1; 0 for none
    heads: Vec<u32>,
}

impl Model for Memo {
    ghost use Rattle.std.specs.Prelude.{List};
    ghost use Rattle.leo_items.specs.Memo.{Note};
    ghost use Rattle.leo_items.specs.Linked.{notes_of, IsHeaded};

    ghost Value = { List Note };

    ghost view = { λ m. notes_of m.notes.items };

    ghost invariant = { λ m. IsHeaded m.notes.items m.heads.items };
}

// The number of the last note of a set.
fn head_of(heads: &[u32], set: u32) -> u32
    ensures { result ≡ slice_index_or heads.now set 0 }
{
    match heads.get(set as usize) {
        Some(number) => *number,
        None => 0,
    }
}

// What was noted of a pair, by the last note of its set. A set has a note for each symbol at most, and the newest is mostly asked for.
fn find(notes: &[Linked], last: u32, pair: Pair) -> Option<Item>
    requires linked { AreLinked notes.now }
    requires last { IsLast notes.now (length notes.now) pair.set last }
    ensures { result ≡ noted (notes_of notes.now) pair }
{
    let mut number = last as usize;
    while number > 0 {
        let note = notes[number - 1];
        if note.pair == pair {
            return Some(note.top);
        }
        number = note.earlier as usize;
    }
    None
}

// The number of the next note, if 32 bits can tell it.
fn next_number(notes: &[Linked]) -> Result<u32, AllocError>
    ensures { IfOk result (λ number. number ≡ length notes.now + 1) }
{
    let count = notes.len();
    if count < 4_294_967_295 {
        Ok(count as u32 + 1)
    } else {
        Err(AllocError)
    }
}

// Makes heads up to this set, as far as there are none.
fn lengthen(heads: &mut Vec<u32>, set: usize) -> Result<(), AllocError>
    requires { set < 4294967296 }
    ensures same { (x : ℕ) →
        slice_index_or heads.new.items x 0 ≡ slice_index_or heads.old.items x 0 }
    ensures long { OnOk result (set < length heads.new.items) }
{
    if set < heads.len() {
        return Ok(());
    }
    heads.resize(set + 1, 0)
}

impl Memo {
    /// Nothing noted.
    pub fn new(alloc: Global) -> Memo
        ensures { result ≡ [] }
    {
        Memo {
            notes: Vec::new(alloc),
            heads: Vec::new(alloc),
        }
    }

    /// What was noted of a pair.
    pub fn get(&self, pair: Pair) -> Option<Item>
        ensures { result ≡ noted self.now pair }
    {
        find(&self.notes, head_of(&self.heads, pair.set), pair)
    }

    /// Notes the item of a pair of which nothing is noted yet.
    pub fn put(&mut self, pair: Pair, top: Item) -> Result<(), AllocError>
        requires { noted self.old pair ≡ None }
        ensures ok { OnOk result (self.new ≡ self.old ++ (pair, top) ∷ []) }
        ensures err { OnErr result (self.new ≡ self.old) }
    {
        let number = next_number(&self.notes)?;
        lengthen(&mut self.heads, pair.set as usize)?;
        let earlier = head_of(&self.heads, pair.set);
        self.notes.push(Linked { pair, top, earlier })?;
        self.heads[pair.set as usize] = number;
        Ok(())
    }

    /// How many pairs were noted.
    pub fn len(&self) -> usize
        ensures { result ≡ length self.now }
    {
        self.notes.len()
    }

    // Lets the last note go.
    fn drop_last(&mut self)
        ensures { self.new ≡ take (length self.old - 1) self.old }
    {
        if let Some(note) = self.notes.pop() {
            self.heads[note.pair.set as usize] = note.earlier;
        }
    }

    /// Lets all notes go but the first ones.
    pub fn keep_first(&mut self, count: usize)
        ensures { self.new ≡ take count self.old }
    {
        while self.len() > count {
            self.drop_last();
        }
    }

    /// Lets all notes go, and keeps their room.
    pub fn clear(&mut self)
        ensures { self.new ≡ [] }
    {
        self.notes.clear();
        self.heads.clear();
    }
}
