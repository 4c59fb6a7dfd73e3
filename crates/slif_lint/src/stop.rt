// Why the program ended early, and its status then.
use slif_base::{FileRefusal, ReadRefusal, WriteFault};
use std::alloc::{AllocError, AllocFailed};
use thiserror::Error;

#[derive(Clone, Copy, Debug, PartialEq, Eq, Error)]
pub(crate) enum Stop {
    #[error("usage: slif_lint [--grammar FILE]")]
    Usage,
    #[error("grammar: longer than 1048576 bytes")]
    TooLong,
    #[error("grammar: not UTF-8 at byte {at}")]
    NotUtf8 { at: usize },
    #[error("grammar: bad token at line {line} column {column}")]
    BadToken { line: u32, column: u32 },
    #[error("grammar: bad statement at line {line} column {column}")]
    BadStatement { line: u32, column: u32 },
    #[error("cannot open a file")]
    OpenFault,
    #[error("read fault")]
    ReadFault,
    #[error("write fault")]
    WriteFault,
    #[error("out of memory")]
    NoMemory,
}

impl Stop {
    /// The status that the program ends with, as `slif` has it.
    pub(crate) fn status(self) -> u8 {
        match self {
            Stop::Usage => 2,
            Stop::TooLong
            | Stop::NotUtf8 { .. }
            | Stop::BadToken { .. }
            | Stop::BadStatement { .. } => 3,
            Stop::OpenFault | Stop::ReadFault | Stop::WriteFault => 4,
            Stop::NoMemory => 5,
        }
    }
}

impl From<AllocError> for Stop {
    fn from(_error: AllocError) -> Stop {
        Stop::NoMemory
    }
}

impl<T: Drop> From<AllocFailed<T>> for Stop {
    fn from(_error: AllocFailed<T>) -> Stop {
        Stop::NoMemory
    }
}

impl From<WriteFault> for Stop {
    fn from(_fault: WriteFault) -> Stop {
        Stop::WriteFault
    }
}

impl From<ReadRefusal> for Stop {
    fn from(refusal: ReadRefusal) -> Stop {
        match refusal {
            ReadRefusal::ReadFault => Stop::ReadFault,
            ReadRefusal::TooLarge => Stop::TooLong,
            ReadRefusal::NoMemory => Stop::NoMemory,
        }
    }
}

impl From<FileRefusal> for Stop {
    fn from(refusal: FileRefusal) -> Stop {
        match refusal {
            FileRefusal::OpenFault => Stop::OpenFault,
            FileRefusal::ReadFault => Stop::ReadFault,
            FileRefusal::TooLarge => Stop::TooLong,
            FileRefusal::NoMemory => Stop::NoMemory,
        }
    }
}
