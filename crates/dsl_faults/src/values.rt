//! Which values an adverb may have.
ghost use Rattle.std.specs.Prelude.{◌≡◌, ◌≤◌, ℕ, min, IfOk, filter};
ghost use Rattle.std.specs.Char.{is_ascii_digit};
ghost use Rattle.language_model.specs.Building.{fits_adverb, is_action, digits_number};
ghost use Rattle.dsl_faults.specs.Adverbs.{is_big};

use crate::adverbs::{is_among, is_number, is_single, is_word_among};
use crate::descriptor::read_action;
use dsl_statement::{Spelled, TokenKind};
use std::alloc::{AllocError, Global};

// One more than the greatest rank and the greatest priority.
const BEYOND: u32 = 1_000_001;

fn is_action(alloc: Global, value: &Spelled) -> Result<bool, AllocError>
    ensures { IfOk result (λ b. b ≡ is_action value.now) }
{
    match value.kind {
        TokenKind::Reserved | TokenKind::Bracket => {
            Ok(read_action(alloc, value.content.as_str())?.is_some())
        }
        _ => Ok(false),
    }
}

/// Whether the value is one of those that the adverb has.
pub fn fits(alloc: Global, name: &str, value: &Spelled) -> Result<bool, AllocError>
    ensures { IfOk result (λ b. b ≡ fits_adverb name.now value.now) }
{
    if name == "action" {
        is_action(alloc, value)
    } else if name == "assoc" {
        Ok(is_word_among(value, &["left", "right", "group"]))
    } else if is_among(&["rank", "priority"], name) {
        Ok(is_number(value))
    } else if name == "null-ranking" {
        Ok(is_word_among(value, &["low", "high"]))
    } else if name == "separator" {
        Ok(is_single(value))
    } else {
        Ok(is_word_among(value, &["0", "1"]))
    }
}

/// The number that the digits of the text spell, or a million and one if that is less.
pub fn size_of(text: &str) -> u32
    ensures { result ≡ min 1000001 (digits_number (filter is_ascii_digit text.now)) }
{
    let mut size = 0u32;
    for b in text.as_bytes() {
        if b.is_ascii_digit() {
            size = (10 * size + (*b - b'0') as u32).min(BEYOND);
        }
    }
    size
}

/// Whether the adverb is a rank or a priority beyond a million.
pub fn is_big(name: &str, value: &Spelled) -> bool
    ensures { result ≡ is_big name.now value.now }
{
    is_among(&["rank", "priority"], name) && size_of(value.content.as_str()) == BEYOND
}
