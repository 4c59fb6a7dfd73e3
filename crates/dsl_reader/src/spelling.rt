//! The text that a token says.
ghost use Rattle.std.specs.Prelude.{◌≡◌, [], ◌∷◌, ◌++◌, IfOk, if◌then◌else◌, string_bytes, encode_utf8_all, false};
ghost use Rattle.std.specs.Str.{chars};
ghost use Rattle.language_model.specs.Tokens.{spaced, spelled_at};
ghost use Rattle.language_model.specs.Description.{is_mark, is_word_of};
ghost use Rattle.dsl_reader.specs.Pieces.{IsPlaced, is_pseudo_of};

use dsl_statement::{Spelled, TokenKind};
use language_model::Token;
use slif_base::Chars;
use std::alloc::{AllocError, Global};
use unicode::properties::is_white_space;

/// A character, after a space if there is to be one.
fn push_behind(out: &mut String, c: char, space: bool) -> Result<(), AllocError>
    ensures { IfOk result (λ _. string_bytes out.new ≡
        string_bytes out.old ++ encode_utf8_all (if space then 32 ∷ c ∷ [] else c ∷ [])) }
{
    if space {
        out.push(' ')?;
    }
    out.push(c)
}

/// The text without white space at its ends, and with one space for each other run of it.
fn spaced(alloc: Global, text: &str) -> Result<String, AllocError>
    ensures { IfOk result (λ s. string_bytes s ≡
        encode_utf8_all (spaced (chars text.now) false false)) }
{
    let mut out = String::new(alloc);
    let mut started = false;
    let mut pending = false;
    for c in text.chars() {
        if is_white_space(c) {
            pending = true;
        } else {
            push_behind(&mut out, c, started && pending)?;
            started = true;
            pending = false;
        }
    }
    Ok(out)
}

/// A token with its text.
pub fn spelled(alloc: Global, chars: &Chars, token: Token) -> Result<Spelled, AllocError>
    requires { IsPlaced chars.now token }
    ensures { IfOk result (λ s. s ≡ spelled_at chars.now token) }
{
    let content = match token.kind {
        TokenKind::Angle => spaced(alloc, chars.text(token.from + 1, token.to - 1))?,
        _ => String::from_str(alloc, chars.text(token.from, token.to))?,
    };
    Ok(Spelled {
        kind: token.kind,
        content,
        at: token.from,
    })
}

/// Whether a token is a mark with this text.
pub fn is_mark_token(chars: &Chars, token: Token, content: &str) -> bool
    requires { IsPlaced chars.now token }
    ensures { result ≡ is_mark content.now (spelled_at chars.now token) }
{
    match token.kind {
        TokenKind::Mark => chars.text(token.from, token.to) == content,
        _ => false,
    }
}

/// Whether a token is a word with this text.
pub fn is_word_token(chars: &Chars, token: Token, content: &str) -> bool
    requires { IsPlaced chars.now token }
    ensures { result ≡ is_word_of content.now (spelled_at chars.now token) }
{
    match token.kind {
        TokenKind::Word => chars.text(token.from, token.to) == content,
        _ => false,
    }
}

/// Whether a token is a pseudo word with this text.
pub fn is_pseudo_token(chars: &Chars, token: Token, content: &str) -> bool
    requires { IsPlaced chars.now token }
    ensures { result ≡ is_pseudo_of content.now (spelled_at chars.now token) }
{
    match token.kind {
        TokenKind::Pseudo => chars.text(token.from, token.to) == content,
        _ => false,
    }
}
