// Why an expression has no value.

use slif_parser::{FoldError, NoMemory, ParseError};
use thiserror::Error;

/// Why an expression has no value. A column counts characters from 1.
#[derive(Debug, Drop, Error)]
pub(crate) enum CalculationError {
    #[error(transparent)]
    Parse(ParseError),
    #[error("division by zero at column {column}")]
    DivisionByZero { column: u32 },
    #[error("no whole root at column {column}")]
    NoRoot { column: u32 },
    #[error("no such function at column {column}")]
    NoFunction { column: u32 },
    #[error("a number is too large at column {column}")]
    TooLarge { column: u32 },
    #[error("no number")]
    NoNumber,
    #[error("out of memory")]
    NoMemory,
}

// `from_gives` says which error a `?` makes.

impl From<ParseError> for CalculationError {
    ghost use Rattle.std.specs.Prelude.{◌≡◌};
    ghost use Rattle.calculator.specs.declared.error.CalculationError.TheVariants.{Parse};

    ghost from_gives = { λ error made. made ≡ Parse error };

    fn from(error: ParseError) -> CalculationError {
        CalculationError::Parse(error)
    }
}

impl From<NoMemory> for CalculationError {
    ghost use Rattle.std.specs.Prelude.{◌≡◌};
    ghost use Rattle.calculator.specs.declared.error.CalculationError.TheVariants.{NoMemory};

    ghost from_gives = { λ _ made. made ≡ NoMemory };

    fn from(_error: NoMemory) -> CalculationError {
        CalculationError::NoMemory
    }
}

impl From<FoldError<CalculationError>> for CalculationError {
    ghost use Rattle.std.specs.Prelude.{◌≡◌};
    ghost use Rattle.calculator.specs.Faults.{fault_of};

    ghost from_gives = { λ error made. made ≡ fault_of error };

    fn from(error: FoldError<CalculationError>) -> CalculationError {
        match error {
            FoldError::Semantics(error) => error,
            FoldError::NoMemory => CalculationError::NoMemory,
        }
    }
}
