//! Why tokens are not read as statements.
ghost use Rattle.std.specs.Prelude.{◌≡◌};

use std::alloc::{AllocError, AllocFailed};
use thiserror::Error;

/// Why tokens are no description.
#[derive(Clone, Copy, Debug, PartialEq, Eq, Error)]
pub enum StatementRefusal {
    /// The piece whose first token stands at this place, in characters, is no statement.
    #[error("bad statement at {at}")]
    BadStatement { at: usize },
    /// Memory ran out.
    #[error("out of memory")]
    NoMemory,
}

impl From<AllocError> for StatementRefusal {
    ghost use Rattle.dsl_reader.specs.declared.refusal.StatementRefusal.TheVariants.{NoMemory};

    ghost from_gives = { λ _ refusal. refusal ≡ NoMemory };

    fn from(_error: AllocError) -> Self {
        StatementRefusal::NoMemory
    }
}

impl<T: Drop> From<AllocFailed<T>> for StatementRefusal {
    ghost use Rattle.dsl_reader.specs.declared.refusal.StatementRefusal.TheVariants.{NoMemory};

    ghost from_gives = { λ _ refusal. refusal ≡ NoMemory };

    fn from(_error: AllocFailed<T>) -> Self {
        StatementRefusal::NoMemory
    }
}
