//! Numbers in the order in which they were found.
ghost use Rattle.std.specs.Prelude.{◌≡◌, ℕ, ◌<◌, ◌^◌, [], false, length, slice_get, slice_index_or, Contains, IsTrue, ◌↔◌, IfOk, OnOk, OnErr};
ghost use Rattle.horn_clauses.specs.Least.{Adds};

use std::alloc::{AllocError, Global};
use std::marker::Model;

/// Numbers in the order in which they were found, each once.
#[derive(Drop)]
pub struct NumberSet {
    order: Vec<u32>,
    // whether each number is among them
    marks: Vec<bool>,
}

impl Model for NumberSet {
    ghost use Rattle.std.specs.Prelude.{List, ℕ};
    ghost use Rattle.horn_clauses.specs.Marks.{AreMarks};

    ghost Value = { List ℕ };

    ghost view = { λ f. f.order.items };

    ghost invariant = { λ f. AreMarks f.marks.items f.order.items };
}

impl NumberSet {
    /// No numbers.
    pub fn new(alloc: Global) -> NumberSet
        ensures { result ≡ [] }
    {
        NumberSet {
            order: Vec::new(alloc),
            marks: Vec::new(alloc),
        }
    }

    /// No numbers, with room to mark those below a bound.
    pub fn below(alloc: Global, bound: usize) -> Result<NumberSet, AllocError>
        ensures { IfOk result (λ set. set ≡ []) }
    {
        let marks = vec![in alloc; false; bound]?;
        Ok(NumberSet {
            order: Vec::new(alloc),
            marks,
        })
    }

    /// How many there are.
    pub fn len(&self) -> usize
        ensures { result ≡ length self.now }
    {
        self.order.len()
    }

    /// The number at the place, if there are so many.
    pub fn get(&self, place: usize) -> Option<u32>
        ensures { result ≡ slice_get self.now place }
    {
        self.order.get(place).copied()
    }

    /// All of them, in order.
    pub fn as_slice(&self) -> &[u32]
        ensures { result.now ≡ self.now }
    {
        self.order.as_slice()
    }

    /// Whether the number is among them.
    pub fn has(&self, x: u32) -> bool
        ensures { IsTrue result ↔ Contains self.now x }
    {
        let place = x as usize;
        place < self.marks.len() && self.marks[place]
    }

    /// One more number.
    pub fn add(&mut self, x: u32) -> Result<(), AllocError>
        ensures ok { OnOk result (Adds self.old self.new x) }
        ensures err { OnErr result (self.new ≡ self.old) }
    {
        if self.has(x) {
            return Ok(());
        }
        let place = x as usize;
        lengthen(&mut self.marks, place)?;
        self.order.push(x)?;
        self.marks[place] = true;
        Ok(())
    }
}

// Makes marks for the numbers up to this one, as far as there are none.
fn lengthen(marks: &mut Vec<bool>, place: usize) -> Result<(), AllocError>
    requires { place < 2 ^ 32 }
    ensures same { (x : ℕ) →
        slice_index_or marks.new.items x false ≡ slice_index_or marks.old.items x false }
    ensures long { OnOk result (place < length marks.new.items) }
{
    if place < marks.len() {
        return Ok(());
    }
    marks.resize(place + 1, false)
}
