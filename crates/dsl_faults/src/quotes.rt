//! Quoted texts.
ghost use Rattle.std.specs.Prelude.{◌≡◌, ◌≤◌, ◌-◌, ◌==◌, if◌then◌else◌, length, chars};
ghost use Rattle.std.specs.Str.{continuation_len};
ghost use Rattle.language_model.specs.Classes as classes;
ghost use Rattle.language_model.specs.Building as building;
ghost use Rattle.dsl_faults.specs.Quotes.{between_quotes};

use dsl_statement::{Spelled, TokenKind};

/// Whether the token is a quoted text.
pub fn is_quote(token: &Spelled) -> bool
    ensures { result ≡ building.is_quote token.now }
{
    matches!(token.kind, TokenKind::Quote)
}

/// How long the modifier after a quoted text or a class is.
pub fn modifier_len(text: &[u8]) -> usize
    ensures value { result ≡ classes.modifier_len text.now }
    ensures within { result ≤ length text.now }
{
    if text.ends_with(&[b':', b'i', b'c']) {
        3
    } else if text.ends_with(&[b':', b'i']) {
        2
    } else {
        0
    }
}

/// What stands between the quotes of a quoted text.
pub fn between_quotes(text: &[u8]) -> &[u8]
    ensures { result.now ≡ between_quotes text.now }
{
    let rest = text.len() - modifier_len(text);
    if rest < 2 { &[] } else { &text[1..rest - 1] }
}

// How many bytes follow the first one of a character.
fn continuation_len(first: u8) -> usize
    ensures { result ≡ continuation_len first }
{
    match first {
        0..=127 => 0,
        128..=223 => 1,
        224..=239 => 2,
        _ => 3,
    }
}

/// How many characters bytes spell.
pub fn character_count(text: &[u8]) -> usize
    ensures { result ≡ length (chars text.now) }
{
    let mut count = 0;
    // so many bytes of the character that was begun are still to come
    let mut rest = 0;
    for byte in text {
        rest = bytes_after(rest, *byte);
        if rest == 0 {
            count += 1;
        }
    }
    count
}

// How many bytes of a character are to come after a byte, where so many were before it.
fn bytes_after(rest: usize, byte: u8) -> usize
    ensures { result ≡ (if rest == 0 then continuation_len byte else rest - 1) }
{
    if rest == 0 {
        continuation_len(byte)
    } else {
        rest - 1
    }
}
