//! Why a grammar or an input cannot be gone on with.
ghost use Rattle.std.specs.Prelude.{◌≡◌, IfOk, string_bytes};
ghost use Rattle.slif_parser.specs.Errors.{Shows, shown_text};

use grammar_core::SymbolId;
use std::alloc::{AllocError, Global};
use std::error::Error;
use std::fmt;
use text_reading::{Place, Refusal, append_in_line};

/// Why a grammar or an input cannot be gone on with. It is shown as the program `slif` tells it, without the program's name.
#[derive(Debug, Drop)]
pub enum ParseError {
    /// The grammar is refused, for a fault at a place, if it has one.
    Grammar {
        message: String,
        place: Option<Place>,
    },
    /// The input is not read to its end, with the place where reading stopped, if it did; or it has no derivation. The lexemes that could
    /// come next stand by the bytes of their names.
    Input {
        message: String,
        place: Option<Place>,
        expected: Vec<SymbolId>,
    },
    NoMemory,
}

impl fmt::Display for ParseError {
    ghost use Rattle.std.specs.Prelude.{Some};
    ghost use Rattle.slif_parser.specs.Messages.{shown};

    ghost output = { λ e. Some (shown e) };

    fn fmt<W: fmt::Write>(&self, f: &mut fmt::Formatter<W>) -> fmt::Result {
        match self {
            ParseError::Grammar { message, .. } => write!(f, "{message}"),
            ParseError::Input { message, .. } => write!(f, "{message}"),
            ParseError::NoMemory => write!(f, "out of memory"),
        }
    }
}

impl Error for ParseError {}

// A text as a message shows it.
fn message_of(alloc: Global, text: &[u8]) -> Result<String, AllocError>
    ensures { IfOk result (λ message. string_bytes message ≡ shown_text text.now) }
{
    let text = String::from_utf8_lossy(alloc, text)?;
    let mut message = String::new(alloc);
    append_in_line(&text, &mut message)?;
    Ok(message)
}

/// A refusal, as it is shown.
pub fn error_of(alloc: Global, refusal: Refusal) -> ParseError
    ensures { Shows refusal result }
{
    match refusal {
        Refusal::Grammar { text, place } => match message_of(alloc, &text) {
            Ok(message) => ParseError::Grammar { message, place },
            Err(_) => ParseError::NoMemory,
        },
        Refusal::Input {
            text,
            place,
            expected,
        } => match message_of(alloc, &text) {
            Ok(message) => ParseError::Input {
                message,
                place,
                expected,
            },
            Err(_) => ParseError::NoMemory,
        },
        Refusal::NoMemory => ParseError::NoMemory,
    }
}
