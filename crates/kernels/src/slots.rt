//! Origins in order, and packed items with slots in place of their origins.
ghost use Rattle.std.specs.Prelude.{◌≡◌, ◌⊎◌, ℕ, ◌%◌, Some, IsTrue, slice_get, Contains, IfSome, IsNone, OnOk};
ghost use Rattle.kernels.specs.Slots.{Rises, placed_all, AreOrigins, AreSlotted};

use std::alloc::AllocFailed;

/// How many origins there may be. A packed item is the number of its dotted rule times this, and its origin.
pub const ORIGINS: u64 = 4_294_967_296;

// Among so many origins one is looked for before it is listed.
const FEW: usize = 8;

/// The slot of an origin.
pub fn slot_of(origins: &[u32], origin: u32) -> Option<u32>
    requires { AreOrigins origins.now }
    ensures some { IfSome result (λ k. slice_get origins.now k ≡ Some origin) }
    ensures none { IsNone result → ¬ Contains origins.now origin }
{
    match origins.binary_search(&origin) {
        Ok(slot) => Some(slot as u32),
        Err(_) => None,
    }
}

/// Lists the origins of packed items, in place of what it held.
pub fn list_origins(packed: &[u64], origins: &mut Vec<u32>) -> Result<(), AllocFailed<u32>>
    ensures origins { OnOk result (AreOrigins origins.new.items) }
    ensures all { OnOk result ((n : ℕ) → Contains packed.now n →
        Contains origins.new.items (n % 4294967296)) }
{
    list_all(packed, origins)?;
    origins.sort_unstable();
    origins.dedup();
    Ok(())
}

// Whether an origin stands among a few.
fn is_among_few(origins: &[u32], origin: u32) -> bool
    ensures { IsTrue result → Contains origins.now origin }
{
    origins.len() <= FEW && origins.contains(&origin)
}

// Lists an origin, unless it stands among a few.
fn list_origin(origins: &mut Vec<u32>, origin: u32) -> Result<(), AllocFailed<u32>>
    ensures { OnOk result ((o : ℕ) → Contains origins.old.items o ⊎ (origin ≡ o) →
        Contains origins.new.items o) }
{
    if is_among_few(origins, origin) {
        return Ok(());
    }
    origins.push(origin)?;
    Ok(())
}

// Lists the origin of each of packed items, in place of what it held.
fn list_all(packed: &[u64], origins: &mut Vec<u32>) -> Result<(), AllocFailed<u32>>
    ensures { OnOk result ((n : ℕ) → Contains packed.now n →
        Contains origins.new.items (n % 4294967296)) }
{
    origins.clear();
    for n in packed {
        list_origin(origins, (*n % ORIGINS) as u32)?;
    }
    Ok(())
}

/// Lists packed items with slots in place of their origins, in place of what it held.
pub fn list_slotted(
    packed: &[u64],
    origins: &[u32],
    slotted: &mut Vec<u64>,
) -> Result<(), AllocFailed<u64>>
    requires row { Rises packed.now }
    requires origins { AreOrigins origins.now }
    requires all { (n : ℕ) → Contains packed.now n → Contains origins.now (n % 4294967296) }
    ensures slotted { OnOk result (AreSlotted origins.now slotted.new.items) }
    ensures packed { OnOk result (placed_all origins.now slotted.new.items ≡ packed.now) }
{
    slotted.clear();
    for n in packed {
        match slot_of(origins, (*n % ORIGINS) as u32) {
            Some(slot) => slotted.push(*n / ORIGINS * ORIGINS + slot as u64)?,
            None => unreachable!(),
        }
    }
    Ok(())
}
