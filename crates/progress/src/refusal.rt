//! Why there is no report.
ghost use Rattle.std.specs.Prelude.{◌≡◌};

use std::alloc::AllocError;
use thiserror::Error;

/// Why there is no report.
#[derive(Clone, Copy, Debug, PartialEq, Eq, Error)]
pub enum ProgressRefusal {
    /// The place lies after the last one of which the set is made.
    #[error("no such set")]
    NoSuchSet,
    /// Memory ran out.
    #[error("out of memory")]
    NoMemory,
}

impl From<AllocError> for ProgressRefusal {
    ghost use Rattle.progress.specs.declared.refusal.ProgressRefusal.TheVariants.{NoMemory};

    ghost from_gives = { λ _ refusal. refusal ≡ NoMemory };

    fn from(_error: AllocError) -> Self {
        ProgressRefusal::NoMemory
    }
}
