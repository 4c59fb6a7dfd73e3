// What is wrong with a name.
use std::alloc::{AllocError, AllocFailed};

/// What is wrong with a name, which begins at the character `start`; characters count from 0.
#[derive(Debug, Drop)]
pub(crate) enum Fault {
    /// It is used, and not declared before.
    NotDeclared {
        name: String,
        start: u32,
    },
    /// It is declared, and was declared before, where `first` is.
    DeclaredTwice {
        name: String,
        start: u32,
        first: u32,
    },
    NoMemory,
}

impl From<AllocError> for Fault {
    ghost use Rattle.std.specs.Prelude.{◌≡◌};
    ghost use Rattle.declared_names.specs.declared.fault.Fault.TheVariants.{NoMemory};

    ghost from_gives = { λ _ fault. fault ≡ NoMemory };

    fn from(_error: AllocError) -> Fault {
        Fault::NoMemory
    }
}

impl<T: Drop> From<AllocFailed<T>> for Fault {
    ghost use Rattle.std.specs.Prelude.{◌≡◌};
    ghost use Rattle.declared_names.specs.declared.fault.Fault.TheVariants.{NoMemory};

    ghost from_gives = { λ _ fault. fault ≡ NoMemory };

    fn from(_error: AllocFailed<T>) -> Fault {
        Fault::NoMemory
    }
}
