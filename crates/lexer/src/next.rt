//! Which state follows from a state by a class of characters.
ghost use Rattle.std.specs.Prelude.{◌≡◌, ℕ, ◌<◌, ◌+◌, ◌*◌, ◌^◌, ◌⊎◌, length, slice_get, IfSome, OnOk};
ghost use Rattle.lexer.specs.Machines.{IsNoted};

use std::alloc::AllocError;

/// How many states are noted at most.
pub const STATES: usize = 4096;

/// How many classes are noted at most.
pub const CLASSES: usize = 128;

// No state is noted.
const UNKNOWN: u32 = u32::MAX;

/// The state that follows from a state by a class, if it is noted.
pub fn state_after(next: &[u32], state: usize, class: usize) -> Option<usize>
    ensures class { IfSome result (λ _. class < 128) }
    ensures noted { IfSome result (IsNoted next.now state class) }
{
    if state >= STATES || class >= CLASSES {
        return None;
    }
    let to = next_at(next, state * CLASSES + class)?;
    if to == UNKNOWN {
        None
    } else {
        Some(to as usize)
    }
}

fn next_at(next: &[u32], place: usize) -> Option<u32>
    ensures { result ≡ slice_get next.now place }
{
    next.get(place).copied()
}

// Makes the list so long that it has the place.
fn lengthen(next: &mut Vec<u32>, place: usize) -> Result<(), AllocError>
    requires { place < 2 ^ 32 }
    ensures same { (s c t : ℕ) → IsNoted next.new.items s c t → IsNoted next.old.items s c t }
    ensures long { OnOk result (place < length next.new.items) }
{
    if place < next.len() {
        return Ok(());
    }
    next.resize(place + 1, UNKNOWN)
}

/// Notes what follows from a state by a class, unless there are so many states or too many.
pub fn note(
    next: &mut Vec<u32>,
    limit: usize,
    state: usize,
    class: usize,
    to: usize,
) -> Result<(), AllocError>
    ensures { (s c t : ℕ) → c < 128 → IsNoted next.new.items s c t →
        IsNoted next.old.items s c t ⊎ ((s ≡ state) × (c ≡ class) × (t ≡ to)) }
{
    if state >= STATES || class >= CLASSES || to >= STATES || to >= limit {
        return Ok(());
    }
    let place = state * CLASSES + class;
    lengthen(next, place)?;
    next[place] = to as u32;
    Ok(())
}
