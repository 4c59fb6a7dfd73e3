//! Slots by their numbers.
ghost use Rattle.std.specs.Prelude.{◌≡◌, ℕ, ◌+◌, ◌<◌, ◌≤◌, length, slice_index, All, IfOk};
ghost use Rattle.slot_analysis.specs.Slots.{number, IsNumbering, IsNumbered};
ghost use Rattle.grammar_check.specs.Told.{slot_with, IsHomed, AreSlotsAt};

use grammar_core::SymbolId;
use slot_analysis::Packed;
use std::alloc::{AllocError, Global};

// The symbol of each number.
fn homes_of(alloc: Global, w: &Packed<'_>, bases: &[u32]) -> Result<Vec<u32>, AllocError>
    requires { IsNumbering w.now bases.now }
    ensures { IfOk result (λ homes. IsHomed w.now bases.now homes.items) }
{
    let mut homes = Vec::new(alloc);
    for s in 0..w.symbol_count() {
        homes.resize(bases[s + 1] as usize, s as u32)?;
    }
    Ok(homes)
}

fn slot_at(w: &Packed<'_>, bases: &[u32], homes: &[u32], x: u32) -> (SymbolId, u32)
    requires numbering { IsNumbering w.now bases.now }
    requires homes { IsHomed w.now bases.now homes.now }
    requires known { x < slice_index bases.now (length w.now.names) }
    ensures numbered { IsNumbered w.now bases.now (slot_with result) }
    ensures same { number bases.now (slot_with result) ≡ x }
{
    w.known();
    let symbol = homes[x as usize];
    (SymbolId(symbol), x - bases[symbol as usize])
}

/// The slots with these numbers.
pub fn slots_at(
    alloc: Global,
    w: &Packed<'_>,
    bases: &[u32],
    path: &[u32],
) -> Result<Vec<(SymbolId, u32)>, AllocError>
    requires numbering { IsNumbering w.now bases.now }
    requires known { All (λ x. x < slice_index bases.now (length w.now.names)) path.now }
    ensures { IfOk result (λ slots. AreSlotsAt w.now bases.now path.now slots.items) }
{
    let homes = homes_of(alloc, w, bases)?;
    let mut slots = Vec::new(alloc);
    for x in path {
        slots.push(slot_at(w, bases, &homes, *x))?;
    }
    Ok(slots)
}
