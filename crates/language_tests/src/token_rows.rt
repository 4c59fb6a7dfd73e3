//! The tokens of a grammar of two lines, and a bad place.
use dsl_tokens::{TokenRefusal, tokens};
use language_model::{Token, TokenKind};
use slif_base::{Chars, TextRefusal, chars_of};
use std::alloc::Global;

// A token's kind, and where it begins and ends.
type Row = (TokenKind, usize, usize);

static ROWS: &[Row] = &[
    (TokenKind::Word, 0, 1),
    (TokenKind::Mark, 2, 5),
    (TokenKind::Quote, 6, 11),
    (TokenKind::Angle, 12, 18),
    (TokenKind::Mark, 18, 19),
    (TokenKind::Word, 24, 25),
    (TokenKind::Mark, 26, 27),
    (TokenKind::Bracket, 28, 43),
    (TokenKind::Mark, 44, 56),
    (TokenKind::Mark, 57, 59),
    (TokenKind::Signed, 60, 62),
];

fn is_token(token: &Token, row: &Row) -> bool {
    token.kind == row.0 && token.from == row.1 && token.to == row.2
}

fn are_tokens(found: &[Token], rows: &[Row]) -> bool {
    let mut same = found.len() == rows.len();
    for k in 0..found.len().min(rows.len()) {
        same = same && is_token(&found[k], &rows[k]);
    }
    same
}

// Whether characters have these tokens, or this bad place.
fn have(alloc: Global, chars: &Chars, wanted: Result<&[Row], usize>) -> bool {
    match tokens(alloc, chars) {
        Ok(found) => match wanted {
            Ok(rows) => are_tokens(found.as_slice(), rows),
            Err(_) => false,
        },
        Err(TokenRefusal::BadToken { at }) => matches!(wanted, Err(place) if place == at),
        Err(_) => false,
    }
}

fn has(alloc: Global, text: &str, wanted: Result<&[Row], usize>) -> Result<bool, TextRefusal> {
    let chars = chars_of(alloc, text.as_bytes())?;
    Ok(have(alloc, &chars, wanted))
}

#[test]
fn two_lines(rt: HostRuntime) -> Result<(), TextRefusal> {
    let text = "S ::= 'a':i <b  c>+ # d\nN ~ [\\]\\d[:alpha:]] null-ranking => -1";
    assert!(rt; has(rt.alloc(), text, Ok(ROWS))?);
    Ok(())
}

#[test]
fn bad_place(rt: HostRuntime) -> Result<(), TextRefusal> {
    assert!(rt; has(rt.alloc(), "S ::= 'a", Err(6))?);
    Ok(())
}
