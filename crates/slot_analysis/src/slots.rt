//! Numbers for the slots of a grammar.
ghost use Rattle.std.specs.Prelude.{◌≡◌, ℕ, suc, ◌+◌, ◌<◌, ◌≤◌, ◌^◌, length, slice_index, IfOk, IsTrue, ◌↔◌, OnErr, OnOk};
ghost use Rattle.grammar_model.specs.Grammar.{rule_at, lhs_of, level_of, child_slot, child_level, tighter, occurs, own_level};
ghost use Rattle.grammar_core.specs.Rules.{groups_of};
ghost use Rattle.slot_analysis.specs.Slots.{number, end_of, IsNumbering, IsNumbered, body_count};

use crate::packed::Packed;
use std::alloc::{AllocError, Global};

// How many levels each symbol has a number for.
fn rooms_of(alloc: Global, w: &Packed<'_>) -> Result<Vec<u32>, AllocError>
    ensures length { IfOk result (λ rooms. length rooms.items ≡ length w.now.names) }
    ensures some { IfOk result (λ rooms. (s : ℕ) → s < length w.now.names →
        0 < slice_index rooms.items s) }
    ensures rules { IfOk result (λ rooms. (i : ℕ) → i < length w.now.rules →
        groups_of (rule_at w.now i) ≤ slice_index rooms.items (lhs_of (rule_at w.now i))) }
{
    let mut rooms = vec![in alloc; 1u32; w.symbol_count()]?;
    for i in 0..w.rule_count() {
        let symbol = w.left_of(i) as usize;
        let groups = w.groups_at(i);
        rooms[symbol] = rooms[symbol].max(groups);
    }
    Ok(rooms)
}

// A sum of rooms. One that 32 bits do not hold counts as too many for memory.
fn sum_of(sum: u32, room: u32) -> Result<u32, AllocError>
    ensures ok { IfOk result (λ next. next ≡ sum + room) }
    ensures err { OnErr result (2 ^ 32 ≤ sum + room) }
{
    match sum.checked_add(room) {
        Some(next) => Ok(next),
        None => Err(AllocError),
    }
}

// The sums of the rooms before each symbol, and of all.
fn sums_of(alloc: Global, rooms: &[u32]) -> Result<Vec<u32>, AllocError>
    ensures length { IfOk result (λ sums. length sums.items ≡ suc (length rooms.now)) }
    ensures begin { IfOk result (λ sums. slice_index sums.items 0 ≡ 0) }
    ensures steps { IfOk result (λ sums. (s : ℕ) → s < length rooms.now →
        slice_index sums.items (suc s) ≡ slice_index sums.items s + slice_index rooms.now s) }
{
    let mut sums = Vec::new(alloc);
    let mut sum = 0u32;
    sums.push(sum)?;
    for room in rooms {
        sum = sum_of(sum, *room)?;
        sums.push(sum)?;
    }
    Ok(sums)
}

/// Where the numbers of each symbol's slots begin, and where all end.
pub fn bases_of(alloc: Global, w: &Packed<'_>) -> Result<Vec<u32>, AllocError>
    ensures { IfOk result (λ bases. IsNumbering w.now bases.items) }
{
    let rooms = rooms_of(alloc, w)?;
    w.known();
    let sums = sums_of(alloc, &rooms)?;
    Ok(sums)
}
