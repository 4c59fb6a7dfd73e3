// The parts of a value, and why a text has none.
ghost use Rattle.std.specs.Prelude.{◌≡◌};

use std::alloc::{AllocError, AllocFailed};
use thiserror::Error;

/// A part of a value. The parts of a value stand in the order of its text, so that a list's are between its `Open` and its `Close`.
#[derive(Debug, Drop)]
pub enum Part {
    Undefined,
    Number(u64),
    Text(String),
    Open,
    Close,
}

/// Why a text was not read.
#[derive(Clone, Copy, Debug, PartialEq, Eq, Error)]
pub enum ReadRefusal {
    /// It is the text of no value. With its last `left` characters away it may be the beginning of one.
    #[error("not a value")]
    NotValue { left: usize },
    #[error("out of memory")]
    NoMemory,
}

impl From<AllocError> for ReadRefusal {
    ghost use Rattle.tree_text.specs.declared.part.ReadRefusal.TheVariants.{NoMemory};

    ghost from_gives = { λ _ refusal. refusal ≡ NoMemory };

    fn from(_error: AllocError) -> ReadRefusal {
        ReadRefusal::NoMemory
    }
}

impl<T: Drop> From<AllocFailed<T>> for ReadRefusal {
    ghost use Rattle.tree_text.specs.declared.part.ReadRefusal.TheVariants.{NoMemory};

    ghost from_gives = { λ _ refusal. refusal ≡ NoMemory };

    fn from(_error: AllocFailed<T>) -> ReadRefusal {
        ReadRefusal::NoMemory
    }
}
