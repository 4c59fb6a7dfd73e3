//! Why a call is refused.
use thiserror::Error;

/// Why a call is refused. All is then as it was.
#[derive(Clone, Copy, Debug, PartialEq, Eq, Error)]
pub enum ScanRefusal {
    /// The grammar is read by already, or not yet.
    #[error("not now")]
    NotNow,
    /// There is no symbol of this number.
    #[error("there is no such symbol")]
    BadSymbol,
    /// There are as many symbols, rules, parts of a rule or places as there may be.
    #[error("there are too many")]
    TooMany,
    /// There is a start already.
    #[error("there is a start")]
    SecondStart,
    /// The grammar cannot be read by.
    #[error("the grammar is refused")]
    BadGrammar,
    /// The terminal is not acceptable here.
    #[error("the terminal is not expected")]
    Unexpected,
    /// The token is there already.
    #[error("the token is there")]
    Duplicate,
    /// The length is 0, or greater than a token may have.
    #[error("the length is 0 or too great")]
    BadLength,
    /// Memory ran out.
    #[error("out of memory")]
    NoMemory,
}
