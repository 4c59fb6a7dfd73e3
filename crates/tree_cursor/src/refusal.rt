//! Why there are no steps.
ghost use Rattle.std.specs.Prelude.{◌≡◌};

use std::alloc::{AllocError, AllocFailed};
use thiserror::Error;

/// Why there are no steps.
#[derive(Clone, Copy, Debug, PartialEq, Eq, Error)]
pub enum CursorRefusal {
    /// The text is the cursor of no tree, or has more than 16,777,216 bytes.
    #[error("not a cursor")]
    BadCursor,
    /// Memory ran out.
    #[error("out of memory")]
    NoMemory,
}

impl From<AllocError> for CursorRefusal {
    ghost use Rattle.tree_cursor.specs.declared.refusal.CursorRefusal.TheVariants.{NoMemory};

    ghost from_gives = { λ _ refusal. refusal ≡ NoMemory };

    fn from(_error: AllocError) -> Self {
        CursorRefusal::NoMemory
    }
}

impl<T: Drop> From<AllocFailed<T>> for CursorRefusal {
    ghost use Rattle.tree_cursor.specs.declared.refusal.CursorRefusal.TheVariants.{NoMemory};

    ghost from_gives = { λ _ refusal. refusal ≡ NoMemory };

    fn from(_error: AllocFailed<T>) -> Self {
        CursorRefusal::NoMemory
    }
}
