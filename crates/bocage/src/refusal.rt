//! Why there is no forest.
ghost use Rattle.std.specs.Prelude.{◌≡◌};

use std::alloc::AllocError;
use thiserror::Error;

/// Why there is no forest.
#[derive(Clone, Copy, Debug, PartialEq, Eq, Error)]
pub enum ForestRefusal {
    /// No tree of the start spans all places.
    #[error("no derivation")]
    NoParse,
    /// Memory ran out, or there are more nodes than numbers.
    #[error("out of memory")]
    NoMemory,
}

impl From<AllocError> for ForestRefusal {
    ghost use Rattle.bocage.specs.declared.refusal.ForestRefusal.TheVariants.{NoMemory};

    ghost from_gives = { λ _ refusal. refusal ≡ NoMemory };

    fn from(_error: AllocError) -> Self {
        ForestRefusal::NoMemory
    }
}
