//! The longest token at the front of a text.
ghost use Rattle.std.specs.Prelude.{◌≡◌, ◌≤◌, ◌<◌, ◌+◌, length, IfSome};
ghost use Rattle.language_model.specs.Classes.{is_posix_letter};
ghost use Rattle.language_model.specs.declared.token.BracketState.TheVariants.{Plain};
ghost use Rattle.language_model.specs.Tokens.{state_behind_other, state_behind, closes, closing};
ghost use Rattle.dsl_tokens.specs.Scanning.{modifier_at, word_at, angle_at, quote_at, bracket_at, colon_at, sign_at, mark_at, token_at};

use crate::rest::Rest;
use crate::runs::{angle_len, digits_len, has_word, quote_len, word_len};
use char_class::is_word;
use language_model::{BracketState, TokenKind};

/// A token's kind and length, where there is one.
type Found = Option<(TokenKind, usize)>;

#[tactic(auto, unfolding(crate::specs::Scanning::modifier_at))]
fn modifier_at(text: &Rest<'_>) -> usize
    ensures value { result ≡ modifier_at text.now }
    ensures within { result ≤ length text.now }
{
    if text.starts_with(&[':', 'i', 'c']) {
        3
    } else if text.starts_with(&[':', 'i']) {
        2
    } else {
        0
    }
}

#[tactic(auto, unfolding(crate::specs::Scanning::word_at))]
fn word_at(text: &Rest<'_>) -> Found
    ensures value { result ≡ word_at text.now }
    ensures within { IfSome result (λ t. t.1 ≤ length text.now) }
{
    if text.starts_with(&['n', 'u', 'l', 'l', '-', 'r', 'a', 'n', 'k', 'i', 'n', 'g']) {
        Some((TokenKind::Mark, 12))
    } else {
        Some((TokenKind::Word, word_len(text)))
    }
}

#[tactic(auto, unfolding(crate::specs::Scanning::angle_at))]
fn angle_at(text: &Rest<'_>) -> Found
    requires { 0 < length text.now }
    ensures value { result ≡ angle_at text.now }
    ensures within { IfSome result (λ t. t.1 ≤ length text.now) }
{
    let len = angle_len(&text.behind(1));
    if text.at_or_zero(1 + len) == '>' && has_word(&text.behind(1), len) {
        Some((TokenKind::Angle, 2 + len))
    } else {
        None
    }
}

#[tactic(auto, unfolding(crate::specs::Scanning::quote_at))]
fn quote_at(text: &Rest<'_>) -> Found
    requires { 0 < length text.now }
    ensures value { result ≡ quote_at text.now }
    ensures within { IfSome result (λ t. t.1 ≤ length text.now) }
{
    let len = quote_len(&text.behind(1));
    if len > 0 && text.at_or_zero(1 + len) == '\'' {
        Some((
            TokenKind::Quote,
            2 + len + modifier_at(&text.behind(2 + len)),
        ))
    } else {
        None
    }
}

fn is_posix_letter(c: char) -> bool
    ensures { result ≡ is_posix_letter c }
{
    c.is_ascii_alphabetic() || c == '^'
}

fn state_behind_other(state: BracketState, c: char) -> BracketState
    ensures { result ≡ state_behind_other state c }
{
    match state {
        BracketState::Opened if c == ':' => BracketState::Colon,
        BracketState::Colon if is_posix_letter(c) => BracketState::Named,
        BracketState::Named if is_posix_letter(c) => BracketState::Named,
        BracketState::Named if c == ':' => BracketState::Ending,
        _ => BracketState::Plain,
    }
}

fn state_behind(state: BracketState, c: char) -> BracketState
    ensures { result ≡ state_behind state c }
{
    match state {
        BracketState::Escaped => BracketState::Plain,
        _ if c == '\\' => BracketState::Escaped,
        _ if c == '[' => BracketState::Opened,
        _ => state_behind_other(state, c),
    }
}

fn closes(state: BracketState, c: char) -> bool
    ensures { result ≡ closes state c }
{
    match state {
        BracketState::Escaped | BracketState::Ending => false,
        _ => c == ']',
    }
}

/// The length up to the closing bracket and with it.
fn closing(text: &Rest<'_>) -> Option<usize>
    ensures value { result ≡ closing text.now Plain }
    ensures within { IfSome result (λ len. len ≤ length text.now) }
{
    let mut state = BracketState::Plain;
    for i in 0..text.len() {
        let c = text.at(i);
        if closes(state, c) {
            return Some(i + 1);
        }
        state = state_behind(state, c);
    }
    None
}

#[tactic(auto, unfolding(crate::specs::Scanning::bracket_at))]
fn bracket_at(text: &Rest<'_>) -> Found
    requires { 0 < length text.now }
    ensures value { result ≡ bracket_at text.now }
    ensures within { IfSome result (λ t. t.1 ≤ length text.now) }
{
    match closing(&text.behind(1)) {
        Some(len) => Some((
            TokenKind::Bracket,
            1 + len + modifier_at(&text.behind(1 + len)),
        )),
        None => None,
    }
}

#[tactic(auto, unfolding(crate::specs::Scanning::colon_at))]
fn colon_at(text: &Rest<'_>) -> Found
    requires { 0 < length text.now }
    ensures value { result ≡ colon_at text.now }
    ensures within { IfSome result (λ t. t.1 ≤ length text.now) }
{
    if text.at_or_zero(1) == ':' {
        if text.at_or_zero(2) == '=' {
            return Some((TokenKind::Mark, 3));
        }
        let len = word_len(&text.behind(2));
        if len > 0 {
            Some((TokenKind::Reserved, 2 + len))
        } else {
            None
        }
    } else {
        let len = word_len(&text.behind(1));
        if len > 0 {
            Some((TokenKind::Pseudo, 1 + len))
        } else {
            None
        }
    }
}

#[tactic(auto, unfolding(crate::specs::Scanning::sign_at))]
fn sign_at(text: &Rest<'_>) -> Found
    requires { 0 < length text.now }
    ensures value { result ≡ sign_at text.now }
    ensures within { IfSome result (λ t. t.1 ≤ length text.now) }
{
    let len = digits_len(&text.behind(1));
    if len > 0 {
        Some((TokenKind::Signed, 1 + len))
    } else if text.at(0) == '+' {
        Some((TokenKind::Mark, 1))
    } else {
        None
    }
}

#[tactic(auto, unfolding(crate::specs::Scanning::mark_at))]
fn mark_at(text: &Rest<'_>) -> Found
    requires { 0 < length text.now }
    ensures value { result ≡ mark_at text.now }
    ensures within { IfSome result (λ t. t.1 ≤ length text.now) }
{
    let c = text.at(0);
    let next = text.at_or_zero(1);
    if c == '|' {
        if next == '|' {
            Some((TokenKind::Mark, 2))
        } else {
            Some((TokenKind::Mark, 1))
        }
    } else if c == '=' {
        if next == '>' {
            Some((TokenKind::Mark, 2))
        } else {
            Some((TokenKind::Mark, 1))
        }
    } else if matches!(c, '~' | '(' | ')' | '*' | ',' | ';') {
        Some((TokenKind::Mark, 1))
    } else {
        None
    }
}

/// The longest token at the front.
#[tactic(auto, unfolding(crate::specs::Scanning::token_at))]
pub fn token_at(text: &Rest<'_>) -> Found
    requires { 0 < length text.now }
    ensures value { result ≡ token_at text.now }
    ensures within { IfSome result (λ t. t.1 ≤ length text.now) }
{
    let c = text.at(0);
    if is_word(c) {
        word_at(text)
    } else if c == '<' {
        angle_at(text)
    } else if c == '\'' {
        quote_at(text)
    } else if c == '[' {
        bracket_at(text)
    } else if c == ':' {
        colon_at(text)
    } else if c == '+' || c == '-' {
        sign_at(text)
    } else {
        mark_at(text)
    }
}
