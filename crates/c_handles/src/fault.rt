//! What is told of a refusal.
ghost use Rattle.std.specs.Prelude.{◌≡◌, ◌<◌, length};
ghost use Rattle.c_handles.specs.Copying.{overlaid};
ghost use Rattle.c_handles.specs.Faults.{code_of, column_at, expected_of, fault_of, line_at, message_of};

use crate::codes::{GRAMMAR, INPUT, NO_MEMORY};
use crate::copying::copy_front;
use slif_parser::{ParseError, Place, SymbolId};

/// What is told of a refusal: the place, from 1, or zeros; the length of the message in bytes; how many lexemes could come next.
#[repr(C)]
#[derive(Clone, Copy)]
pub struct Fault {
    pub line: u32,
    pub column: u32,
    pub message: usize,
    pub expected: usize,
}

// What is told of an error with a message, where so many lexemes could come next.
fn fault_at(place: Option<Place>, message: &str, expected: usize) -> Fault
    ensures { result ≡ record {
      line = line_at place;
      column = column_at place;
      message = length message.now;
      expected = expected;
    } }
{
    let (line, column) = match place {
        Some(Place { line, column }) => (line, column),
        None => (0, 0),
    };
    Fault {
        line,
        column,
        message: message.len(),
        expected,
    }
}

/// Copies the numbers of as many of the first symbols as there is room for.
pub fn copy_numbers(from: &[SymbolId], to: &mut [u32])
    ensures { to.new ≡ overlaid from.now to.old }
{
    let count = from.len().min(to.len());
    for k in 0..count {
        let symbol = from[k];
        to[k] = symbol.0;
    }
}

/// Tells of an error, and answers its code. Of want of memory nothing is told but the code.
pub fn tell(error: &ParseError, fault: &mut Fault, message: &mut [u8], expected: &mut [u32]) -> u32
    ensures code { result ≡ code_of error.now }
    ensures fault { fault.new ≡ fault_of error.now fault.old }
    ensures message { message.new ≡ message_of error.now message.old }
    ensures expected { expected.new ≡ expected_of error.now expected.old }
{
    match error {
        ParseError::Grammar {
            message: text,
            place,
        } => {
            *fault = fault_at(*place, text.as_str(), 0);
            copy_front(text.as_bytes(), message);
            GRAMMAR
        }
        ParseError::Input {
            message: text,
            place,
            expected: symbols,
        } => {
            *fault = fault_at(*place, text.as_str(), symbols.len());
            copy_front(text.as_bytes(), message);
            copy_numbers(symbols, expected);
            INPUT
        }
        ParseError::NoMemory => NO_MEMORY,
    }
}
