//! Why a script was not played to its end.
ghost use Rattle.std.specs.Prelude.{◌≡◌};

use std::alloc::{AllocError, AllocFailed};
use thiserror::Error;

/// Why the answers were not all written.
#[derive(Clone, Copy, Debug, PartialEq, Eq, Error)]
pub enum ScriptRefusal {
    #[error("a write failed")]
    WriteFault,
    #[error("out of memory")]
    NoMemory,
}

impl From<AllocError> for ScriptRefusal {
    ghost use Rattle.marpa_script.specs.declared.refusal.ScriptRefusal.TheVariants.{NoMemory};

    ghost from_gives = { λ _ refusal. refusal ≡ NoMemory };

    fn from(_error: AllocError) -> Self {
        ScriptRefusal::NoMemory
    }
}

impl<T: Drop> From<AllocFailed<T>> for ScriptRefusal {
    ghost use Rattle.marpa_script.specs.declared.refusal.ScriptRefusal.TheVariants.{NoMemory};

    ghost from_gives = { λ _ refusal. refusal ≡ NoMemory };

    fn from(_error: AllocFailed<T>) -> Self {
        ScriptRefusal::NoMemory
    }
}
