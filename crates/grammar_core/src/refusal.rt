//! Why a grammar refuses what it is given.
ghost use Rattle.std.specs.Prelude.{◌≡◌};

use std::alloc::AllocError;
use thiserror::Error;

/// What a grammar refuses. Of several reasons the first in this order is told, but want of memory may come at any point.
#[derive(Clone, Copy, Debug, PartialEq, Eq, Error)]
pub enum CoreRefusal {
    /// A symbol has a number that the grammar does not have.
    #[error("no such symbol")]
    BadSymbol,
    /// A rule's level is not below the number of its groups.
    #[error("the level is not below the groups")]
    BadLevel,
    /// It would be the 16,777,216th symbol, rule or start, or a right side has more than 1,000 parts.
    #[error("too many")]
    TooMany,
    /// Memory ran out.
    #[error("out of memory")]
    NoMemory,
}

impl From<AllocError> for CoreRefusal {
    ghost use Rattle.grammar_core.specs.declared.refusal.CoreRefusal.TheVariants.{NoMemory};

    ghost from_gives = { λ _ refusal. refusal ≡ NoMemory };

    fn from(_error: AllocError) -> Self {
        CoreRefusal::NoMemory
    }
}
