// Why a text is not in order.
use slif_parser::{ParseError, Place};
use thiserror::Error;

/// Why a text is not in order.
#[derive(Debug, Drop, Error)]
pub(crate) enum Stop {
    #[error(transparent)]
    Parse(ParseError),
    #[error("{name} at line {} column {} is not declared before", .place.line, .place.column)]
    NotDeclared {
        name: String,
        place: Place,
    },
    #[error("{name} at line {} column {} is declared already, at line {} column {}", .place.line, .place.column, .first.line, .first.column)]
    DeclaredTwice {
        name: String,
        place: Place,
        first: Place,
    },
    #[error("out of memory")]
    NoMemory,
}
