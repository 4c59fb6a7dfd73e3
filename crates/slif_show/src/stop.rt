// Why the program ended early, and its status then.
use slif_base::WriteFault;
use std::alloc::{AllocError, AllocFailed};
use thiserror::Error;

#[derive(Clone, Copy, Debug, PartialEq, Eq, Error)]
pub(crate) enum Stop {
    #[error("usage: slif_show [--json | --dot | --svg | --diff | --rules]")]
    Usage,
    #[error("line {line} column {column}: not a value")]
    NotValue { line: usize, column: usize },
    #[error("there are no two trees")]
    NoTwoTrees,
    #[error("there is no tree of a grammar by slif.slif")]
    NoGrammar,
    #[error("read fault")]
    ReadFault,
    #[error("write fault")]
    WriteFault,
    #[error("out of memory")]
    NoMemory,
}

impl Stop {
    /// The status that the program ends with.
    pub(crate) fn status(self) -> u8 {
        match self {
            Stop::NotValue { .. } | Stop::NoTwoTrees | Stop::NoGrammar => 1,
            Stop::Usage => 2,
            Stop::ReadFault | Stop::WriteFault => 4,
            Stop::NoMemory => 5,
        }
    }
}

impl From<AllocError> for Stop {
    fn from(_error: AllocError) -> Stop {
        Stop::NoMemory
    }
}

impl<T: Drop> From<AllocFailed<T>> for Stop {
    fn from(_error: AllocFailed<T>) -> Stop {
        Stop::NoMemory
    }
}

impl From<WriteFault> for Stop {
    fn from(_fault: WriteFault) -> Stop {
        Stop::WriteFault
    }
}
