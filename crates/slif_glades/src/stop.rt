// Why the program ended early, and its status then.
ghost use Rattle.std.specs.Prelude.{◌≡◌};
ghost use Rattle.slif_glades.specs.Telling.{status_of};

use slif_base::{FileRefusal, ReadRefusal, WriteFault};
use slif_parser::ParseError;
use std::alloc::AllocError;
use thiserror::Error;

#[derive(Debug, Drop, Error)]
pub(crate) enum Stop {
    #[error("usage: slif_glades --grammar FILE [--input FILE] [--all]")]
    Usage,
    #[error(transparent)]
    Parse(ParseError),
    #[error("cannot open a file")]
    OpenFault,
    #[error("read fault")]
    ReadFault,
    #[error("write fault")]
    WriteFault,
    #[error("out of memory")]
    NoMemory,
}

impl Stop {
    /// The status that the program ends with, as `slif` has it.
    pub(crate) fn status(&self) -> u8
        ensures { result ≡ status_of self.now }
    {
        match self {
            Stop::Parse(ParseError::Input { .. }) => 1,
            Stop::Usage => 2,
            Stop::Parse(ParseError::Grammar { .. }) => 3,
            Stop::OpenFault | Stop::ReadFault | Stop::WriteFault => 4,
            Stop::Parse(ParseError::NoMemory) | Stop::NoMemory => 5,
        }
    }
}

impl From<AllocError> for Stop {
    ghost use Rattle.std.specs.Prelude.{◌≡◌};
    ghost use Rattle.slif_glades.specs.declared.stop.Stop.TheVariants.{NoMemory};

    ghost from_gives = { λ _ stop. stop ≡ NoMemory };

    fn from(_error: AllocError) -> Stop {
        Stop::NoMemory
    }
}

impl From<WriteFault> for Stop {
    ghost use Rattle.std.specs.Prelude.{◌≡◌};
    ghost use Rattle.slif_glades.specs.declared.stop.Stop.TheVariants.{WriteFault};

    ghost from_gives = { λ _ stop. stop ≡ WriteFault };

    fn from(_fault: WriteFault) -> Stop {
        Stop::WriteFault
    }
}

impl From<ReadRefusal> for Stop {
    fn from(refusal: ReadRefusal) -> Stop {
        match refusal {
            ReadRefusal::ReadFault => Stop::ReadFault,
            ReadRefusal::TooLarge | ReadRefusal::NoMemory => Stop::NoMemory,
        }
    }
}

impl From<FileRefusal> for Stop {
    fn from(refusal: FileRefusal) -> Stop {
        match refusal {
            FileRefusal::OpenFault => Stop::OpenFault,
            FileRefusal::ReadFault => Stop::ReadFault,
            FileRefusal::TooLarge | FileRefusal::NoMemory => Stop::NoMemory,
        }
    }
}
