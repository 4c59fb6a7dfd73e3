//! Counts that are kept in 32 bits.
ghost use Rattle.std.specs.Prelude.{◌≡◌, ◌≤◌, ◌^◌, IfOk, OnErr};

use std::alloc::AllocError;

/// A count as a number. One that 32 bits do not hold counts as too many for memory.
#[inline(always)]
pub fn number(count: usize) -> Result<u32, AllocError>
    ensures ok { IfOk result (λ n. n ≡ count) }
    ensures err { OnErr result (2 ^ 32 ≤ count) }
{
    match u32::try_from(count) {
        Ok(number) => Ok(number),
        Err(_) => Err(AllocError),
    }
}
