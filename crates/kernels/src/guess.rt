//! The shape of a row is guessed before it is looked up. A guess may be wrong: `fits` tells whether it holds.
ghost use Rattle.std.specs.Prelude.{◌≡◌, ℕ, ◌%◌, ◌<◌, ◌≤◌, ◌∷◌, [], length, slice_index_or, IsTrue, IfOk, OnOk};
ghost use Rattle.kernels.specs.Slots.{Rises, placed_all, IsPlaced, AreSlotted};

use crate::slots::ORIGINS;
use std::alloc::AllocError;

// How many guesses there are while there are few shapes, and later.
const FEW: usize = 64;

const GUESSES: usize = 4096;

// Stands at slots whose origin is not known yet.
const UNSET: u32 = u32::MAX;

/// The place of the guess for packed items whose row shares a list, if there are so many guesses.
pub(crate) fn place_of(packed: &[u64], begun: u32, guesses: usize) -> usize {
    if packed.is_empty() {
        return 0;
    }
    let first = packed[0] / ORIGINS;
    let last = packed[packed.len() - 1] / ORIGINS;
    let count = packed.len() as u64;
    let key = begun as u64 ^ first.rotate_left(16) ^ last.rotate_left(32) ^ count.rotate_left(48);
    (key.wrapping_mul(0x9e37_79b9_7f4a_7c15) >> 52) as usize & guesses.wrapping_sub(1)
}

/// What is guessed at a place.
pub(crate) fn guess_at(guesses: &[u32], place: usize) -> u32
    ensures { result ≡ slice_index_or guesses.now place 0 }
{
    match guesses.get(place) {
        Some(guess) => *guess,
        None => 0,
    }
}

/// Mends a guess that was wrong.
#[inline(always)]
pub(crate) fn mend_guess(guesses: &mut Vec<u32>, place: usize, guess: u32, kind: u32) {
    if kind != guess {
        put_guess(guesses, place, kind);
    }
}

// Sets what is guessed at a place, if there is memory for guesses.
fn put_guess(guesses: &mut Vec<u32>, place: usize, kind: u32) {
    let count = if (kind as usize) < FEW / 2 {
        FEW
    } else {
        GUESSES
    };
    if guesses.len() < count && guesses.resize(count, 0).is_err() {
        return;
    }
    let place = place & guesses.len().wrapping_sub(1);
    if place < guesses.len() {
        guesses[place] = kind;
    }
}

/// Whether packed items are slotted ones with origins in place of slots, which are listed then.
pub(crate) fn fits(
    slotted: &[u64],
    packed: &[u64],
    origins: &mut Vec<u32>,
) -> Result<bool, AllocError>
    requires { Rises packed.now }
    ensures slotted { IfOk result (λ fits. IsTrue fits →
        AreSlotted origins.new.items slotted.now) }
    ensures packed { IfOk result (λ fits. IsTrue fits →
        placed_all origins.new.items slotted.now ≡ packed.now) }
{
    if slotted.len() != packed.len() {
        return Ok(false);
    }
    if packed.len() == 1 {
        return fits_one(slotted[0], packed[0], origins);
    }
    if !place_all(slotted, packed, origins)? {
        return Ok(false);
    }
    Ok(do_rise(origins))
}

// The same for one item alone, as many rows have: its slot is the first.
#[inline(always)]
fn fits_one(slotted: u64, packed: u64, origins: &mut Vec<u32>) -> Result<bool, AllocError>
    ensures one { IfOk result (λ fits. IsTrue fits →
        origins.new.items ≡ packed % 4294967296 ∷ []) }
    ensures placed { IfOk result (λ fits. IsTrue fits →
        IsPlaced origins.new.items slotted packed) }
{
    if slotted != packed / ORIGINS * ORIGINS {
        return Ok(false);
    }
    origins.clear();
    origins.push((packed % ORIGINS) as u32)?;
    Ok(true)
}

// Puts the origin of each packed item at its slot, in place of what was held, and tells whether each slot has one origin.
fn place_all(slotted: &[u64], packed: &[u64], origins: &mut Vec<u32>) -> Result<bool, AllocError>
    requires { length slotted.now ≡ length packed.now }
    ensures { IfOk result (λ are. IsTrue are → (k : ℕ) → k < length slotted.now →
        IsPlaced origins.new.items (slice_index_or slotted.now k 0)
        (slice_index_or packed.now k 0)) }
{
    origins.clear();
    for k in 0..slotted.len() {
        if !place(slotted[k], packed[k], origins)? {
            return Ok(false);
        }
    }
    Ok(true)
}

// Puts the origin of a packed item at its slot, and tells whether it is there and the dotted rules are the same.
#[inline(always)]
fn place(slotted: u64, packed: u64, origins: &mut Vec<u32>) -> Result<bool, AllocError>
    ensures placed { IfOk result (λ is. IsTrue is → IsPlaced origins.new.items slotted packed ×
        (packed % 4294967296 < 4294967295)) }
    ensures kept { (m n : ℕ) → IsPlaced origins.old.items m n → n % 4294967296 < 4294967295 →
        IsPlaced origins.new.items m n }
{
    let slot = (slotted % ORIGINS) as usize;
    let origin = (packed % ORIGINS) as u32;
    if origin == UNSET || slotted / ORIGINS != packed / ORIGINS {
        return Ok(false);
    }
    make_room(origins, slot)?;
    Ok(put(origins, slot, origin))
}

// Makes room for a slot. No origin is changed.
#[inline(always)]
fn make_room(origins: &mut Vec<u32>, slot: usize) -> Result<(), AllocError>
    requires { slot < 4294967296 }
    ensures room { OnOk result (slot < length origins.new.items) }
    ensures longer { length origins.old.items ≤ length origins.new.items }
    ensures same { (k : ℕ) → k < length origins.old.items →
        slice_index_or origins.new.items k 0 ≡ slice_index_or origins.old.items k 0 }
{
    if slot >= origins.len() {
        origins.resize(slot + 1, UNSET)?;
    }
    Ok(())
}

// Puts an origin at a slot where none is yet, and tells whether it is there.
#[inline(always)]
fn put(origins: &mut Vec<u32>, slot: usize, origin: u32) -> bool
    requires { slot < length origins.old.items }
    ensures there { IsTrue result → slice_index_or origins.new.items slot 0 ≡ origin }
    ensures long { length origins.new.items ≡ length origins.old.items }
    ensures same { (k : ℕ) → slice_index_or origins.old.items k 0 < 4294967295 →
        slice_index_or origins.new.items k 0 ≡ slice_index_or origins.old.items k 0 }
{
    if origins[slot] == UNSET {
        origins[slot] = origin;
    }
    origins[slot] == origin
}

// Whether each origin is greater than the one before.
fn do_rise(origins: &[u32]) -> bool
    ensures { IsTrue result → Rises origins.now }
{
    for k in 1..origins.len() {
        if origins[k - 1] >= origins[k] {
            return false;
        }
    }
    true
}
