//! Why a grammar is not flattened.
ghost use Rattle.std.specs.Prelude.{◌≡◌};

use std::alloc::AllocError;
use thiserror::Error;

/// What flattening refuses.
#[derive(Clone, Copy, Debug, PartialEq, Eq, Error)]
pub enum FlatRefusal {
    /// There are more than 65,536 flat rules, those of the tops included.
    #[error("more than 65536 flat rules")]
    TooManyRules,
    /// Memory ran out.
    #[error("out of memory")]
    NoMemory,
}

impl From<AllocError> for FlatRefusal {
    ghost use Rattle.flat_rules.specs.declared.refusal.FlatRefusal.TheVariants.{NoMemory};

    ghost from_gives = { λ _ refusal. refusal ≡ NoMemory };

    fn from(_error: AllocError) -> Self {
        FlatRefusal::NoMemory
    }
}
