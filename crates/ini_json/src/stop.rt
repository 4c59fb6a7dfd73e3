// Why the program ends early, and its status then.
use slif_parser::ParseError;
use std::io;
use thiserror::Error;

/// Why the program ends early.
#[derive(Debug, Drop, Error)]
pub(crate) enum Stop {
    #[error(transparent)]
    Parse(ParseError),
    #[error("{0}")]
    Outside(io::Error),
}

impl Stop {
    /// The status that the program ends with.
    pub(crate) fn status(&self) -> u8 {
        match self {
            Stop::Parse(ParseError::NoMemory) => 5,
            Stop::Parse(_) => 1,
            Stop::Outside(error) if error.kind() == io::ErrorKind::OutOfMemory => 5,
            Stop::Outside(_) => 4,
        }
    }
}

impl From<ParseError> for Stop {
    fn from(error: ParseError) -> Stop {
        Stop::Parse(error)
    }
}

impl From<io::Error> for Stop {
    fn from(error: io::Error) -> Stop {
        Stop::Outside(error)
    }
}
