//! Places in rows of one shape and in the list that they share, noted once for all of them.
ghost use Rattle.std.specs.Prelude.{◌≡◌, ℕ, ◌⊎◌, [], slice_get, Some, IfSome};
ghost use Rattle.shared_lists.specs.Placed.{HasPlaces};
ghost use Rattle.shared_lists.specs.declared.places.Places.{Places as ThePlaces};

use std::alloc::{AllocError, Global};

// So many places are noted, of all shapes together. They take a megabyte.
const PLACES: usize = 65_536;

// Of so many shapes it is counted how often their rows are asked for.
const KINDS: usize = 4_096;

/// From where to where some items stand, among a row's own and in the list that it shares.
#[derive(Clone, Copy)]
pub struct Places {
    pub own_start: u32,
    pub own_end: u32,
    pub begun_start: u32,
    pub begun_end: u32,
}

/// Places by the numbers of shapes and of symbols.
#[derive(Drop)]
pub struct Noted {
    // how often rows of each shape were asked for
    seen: Vec<u32>,
    // shape by shape, those of all symbols, or none
    blocks: Vec<Vec<Places>>,
    // how many places more are noted
    room: usize,
}

#[inline(always)]
fn place_at(block: &[Places], symbol: usize) -> Option<Places>
    ensures { result ≡ slice_get block.now symbol }
{
    block.get(symbol).copied()
}

impl Noted {
    /// Nothing is noted.
    pub fn new(alloc: Global) -> Noted
        ensures { result.blocks.items ≡ [] }
    {
        Noted {
            seen: Vec::new(alloc),
            blocks: Vec::new(alloc),
            room: PLACES,
        }
    }

    /// Lets go all that is noted.
    pub fn clear(&mut self)
        ensures { self.new.blocks.items ≡ [] }
    {
        self.seen.clear();
        self.blocks.clear();
        self.room = PLACES;
    }

    /// The places that are noted for a shape and a symbol.
    #[inline(always)]
    pub fn places(&self, kind: u32, symbol: u32) -> Option<Places>
        ensures { IfSome result (λ p. HasPlaces self.now.blocks.items kind symbol p) }
    {
        let block = self.blocks.get(kind as usize)?;
        place_at(block, symbol as usize)
    }

    /// Counts that a row of a shape was asked for, and tells whether so many places are to be noted for the shape now. That is when as many
    /// were: then noting costs no more than looking for places did.
    pub fn is_due(&mut self, kind: u32, count: usize) -> bool
        ensures { self.new.blocks ≡ self.old.blocks }
    {
        let kind = kind as usize;
        if kind >= KINDS || count > self.room {
            return false;
        }
        if kind >= self.seen.len() && self.seen.resize(kind + 1, 0).is_err() {
            return false;
        }
        let seen = self.seen[kind].saturating_add(1);
        self.seen[kind] = seen;
        seen as usize == count
    }

    /// Notes the places of a shape, symbol by symbol, if there is memory.
    pub fn put(&mut self, kind: u32, block: Vec<Places>) -> Result<(), AllocError>
        ensures { (k x : ℕ) (p : ThePlaces) → HasPlaces self.new.blocks.items k x p →
            HasPlaces self.old.blocks.items k x p ⊎
            ((k ≡ kind) × (slice_get block.items x ≡ Some p)) }
    {
        let kind = kind as usize;
        self.room = self.room.saturating_sub(block.len());
        let alloc = *self.blocks.allocator();
        for _ in self.blocks.len()..kind + 1 {
            self.blocks.push(Vec::new(alloc))?;
        }
        self.blocks[kind] = block;
        Ok(())
    }
}
