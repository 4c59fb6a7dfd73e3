//! A supplier that keeps its lexemes in a list.
ghost use Rattle.std.specs.Prelude.{◌≡◌, ◌↔◌, [], IsTrue, IsNone, IfSome, Contains};
ghost use Rattle.reading_model.specs.First.{IsFirstWith, HasNone};
ghost use Rattle.slippers.specs.Stock.{told, given_at};

use crate::Supplier;
use grammar_core::SymbolId;
use std::alloc::{AllocError, Global};
use std::marker::Model;

/// Supplies lexemes from a list.
#[derive(Drop)]
pub struct ListSupplier {
    alloc: Global,
    names: Vec<SymbolId>,
    place: u32,
    given: Vec<SymbolId>,
}

impl Model for ListSupplier {
    ghost use Rattle.slippers.specs.Stock.{Stock};

    ghost Value = { Stock };

    ghost view = { λ s. record { names = s.names.items; place = s.place; given = s.given.items } };
}

impl ListSupplier {
    /// A supplier without lexemes. It takes no memory.
    pub fn new(alloc: Global) -> ListSupplier
        ensures { result ≡ told [] }
    {
        ListSupplier {
            alloc,
            names: Vec::new(alloc),
            place: 0,
            given: Vec::new(alloc),
        }
    }

    // Those that were given at a place.
    fn given_at(&self, at: u32) -> &[SymbolId]
        ensures { result.now ≡ given_at self.now at }
    {
        if at == self.place {
            self.given.as_slice()
        } else {
            &[]
        }
    }

    fn move_to(&mut self, at: u32)
        ensures { self.new ≡ record {
          names = self.old.names;
          place = at;
          given = given_at self.old at;
        } }
    {
        if at != self.place {
            self.place = at;
            self.given.clear();
        }
    }
}

fn may_give(expected: &[SymbolId], given: &[SymbolId], symbol: SymbolId) -> bool
    ensures { IsTrue result ↔ (Contains expected.now symbol × (Contains given.now symbol → ⊥)) }
{
    expected.contains(&symbol) && !given.contains(&symbol)
}

// The first name that is expected and was not given.
fn first_to_give(names: &[SymbolId], expected: &[SymbolId], given: &[SymbolId]) -> Option<SymbolId>
    ensures none { IsNone result → HasNone (λ s. Contains expected.now s ×
        (Contains given.now s → ⊥)) names.now }
    ensures some { IfSome result (λ x. IsFirstWith
        (λ s. Contains expected.now s × (Contains given.now s → ⊥)) names.now x) }
{
    for symbol in names {
        if may_give(expected, given, *symbol) {
            return Some(*symbol);
        }
    }
    None
}

impl Supplier for ListSupplier {
    ghost stock = { λ s. s };

    fn tell(&mut self, names: &[SymbolId]) -> Result<(), AllocError> {
        let told = Vec::from_slice(self.alloc, names)?;
        self.names = told;
        self.place = 0;
        self.given.clear();
        Ok(())
    }

    fn offer(&mut self, at: u32, expected: &[SymbolId]) -> Result<Option<SymbolId>, AllocError> {
        let Some(symbol) = first_to_give(&self.names, expected, self.given_at(at)) else {
            self.move_to(at);
            return Ok(None);
        };
        let mut given = Vec::from_slice(self.alloc, self.given_at(at))?;
        given.push(symbol)?;
        self.given = given;
        self.place = at;
        Ok(Some(symbol))
    }
}
