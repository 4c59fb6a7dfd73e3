//! The pieces of a class.
ghost use Rattle.std.specs.Prelude.{◌≡◌, ◌≤◌, ◌<◌, ◌+◌, length, IfOk};
ghost use Rattle.language_model.specs.Classes.{is_line_end, piece_at, pieces_of};

use crate::escape::{char_at, escape_piece, hex_piece, posix_len, posix_piece};
use language_model::{ClassFault, Piece};
use std::alloc::{AllocError, Global};

fn is_line_end(c: char) -> bool
    ensures { result ≡ is_line_end c }
{
    matches!(c, '\u{A}'..='\u{D}' | '\u{85}' | '\u{2028}' | '\u{2029}')
}

/// The piece at the front, and how many characters it has.
#[tactic(auto, unfolding(language_model::specs::Classes::piece_at))]
fn piece_at(text: &[char]) -> (Piece, usize)
    requires { 0 < length text.now }
    ensures value { result ≡ piece_at text.now }
    ensures moves { 0 < result.1 }
    ensures within { result.1 ≤ length text.now + 10 }
{
    let len = posix_len(text);
    if len > 0 {
        return (posix_piece(&text[2..2 + len]), 4 + len);
    }
    let c = text[0];
    if c == '\\' {
        let escaped = char_at(text, 1);
        if escaped == 'x' {
            hex_piece(text)
        } else {
            (escape_piece(escaped), 2)
        }
    } else if is_line_end(c) {
        (Piece::Bad(ClassFault::BadEscape), 1)
    } else if c == '-' {
        (Piece::Hyphen, 1)
    } else {
        (Piece::One(c), 1)
    }
}

/// The pieces of the text between the brackets of a class.
pub fn pieces_of(alloc: Global, text: &[char]) -> Result<Vec<Piece>, AllocError>
    ensures { IfOk result (λ pieces. pieces.items ≡ pieces_of text.now) }
{
    let mut pieces = Vec::new(alloc);
    let mut at = 0;
    while at < text.len() {
        let (piece, len) = piece_at(&text[at..]);
        pieces.push(piece)?;
        at += len;
    }
    Ok(pieces)
}
