//! Why a text is refused.

use grammar_core::SymbolId;
use std::alloc::AllocError;

/// A place in a text: its line and its column, both from 1. A line ends with LF; columns count characters.
#[derive(Clone, Copy, Debug, PartialEq, Eq)]
pub struct Place {
    pub line: u32,
    pub column: u32,
}

/// Why a text is refused. It is told in a line, which names what it tells of first.
#[derive(Debug, Drop)]
pub enum Refusal {
    /// A grammar, with the place of its fault, if that has one.
    Grammar {
        text: Vec<u8>,
        place: Option<Place>,
    },
    /// An input, with the place where reading stopped, if it did, and the lexemes that could come next, by the bytes of their names.
    Input {
        text: Vec<u8>,
        place: Option<Place>,
        expected: Vec<SymbolId>,
    },
    /// There was no memory to read it, or to tell why it is refused.
    NoMemory,
}

impl From<AllocError> for Refusal {
    ghost use Rattle.std.specs.Prelude.{◌≡◌};
    ghost use Rattle.text_reading.specs.declared.refusal.Refusal.TheVariants.{NoMemory};

    ghost from_gives = { λ _ refusal. refusal ≡ NoMemory };

    fn from(_error: AllocError) -> Refusal {
        Refusal::NoMemory
    }
}
