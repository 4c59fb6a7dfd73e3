//! How far a run of characters goes.
ghost use Rattle.std.specs.Prelude.{◌≡◌, ◌≤◌, false, length, take};
ghost use Rattle.std.specs.Char.{is_ascii_digit};
ghost use Rattle.std.specs.List.{list_any, prefix_len};
ghost use Rattle.language_model.specs.Tokens.{is_word};
ghost use Rattle.language_model.specs.Layout.{layout_len};
ghost use Rattle.dsl_tokens.specs.Scanning.{is_angle_character, is_quotable};

use crate::rest::Rest;
use char_class::is_word;
use unicode::properties::is_white_space;

fn is_angle_character(c: char) -> bool
    ensures { result ≡ is_angle_character c }
{
    is_word(c) || is_white_space(c)
}

fn is_quotable(c: char) -> bool
    ensures { result ≡ is_quotable c }
{
    !matches!(
        c,
        '\'' | '\u{A}'..='\u{D}' | '\u{85}' | '\u{2028}' | '\u{2029}'
    )
}

/// Whether a word character is among the first ones.
pub fn has_word(text: &Rest<'_>, count: usize) -> bool
    requires { count ≤ length text.now }
    ensures { result ≡ list_any is_word (take count text.now) }
{
    for i in 0..count {
        if is_word(text.at(i)) {
            return true;
        }
    }
    false
}

/// How many characters of a word the text begins with.
pub fn word_len(text: &Rest<'_>) -> usize
    ensures value { result ≡ prefix_len is_word text.now }
    ensures within { result ≤ length text.now }
{
    let mut len = 0;
    while len < text.len() && is_word(text.at(len)) {
        len += 1;
    }
    len
}

/// How many digits the text begins with.
pub fn digits_len(text: &Rest<'_>) -> usize
    ensures value { result ≡ prefix_len is_ascii_digit text.now }
    ensures within { result ≤ length text.now }
{
    let mut len = 0;
    while len < text.len() && text.at(len).is_ascii_digit() {
        len += 1;
    }
    len
}

/// How many characters that may stand between angle brackets the text begins with.
pub fn angle_len(text: &Rest<'_>) -> usize
    ensures value { result ≡ prefix_len is_angle_character text.now }
    ensures within { result ≤ length text.now }
{
    let mut len = 0;
    while len < text.len() && is_angle_character(text.at(len)) {
        len += 1;
    }
    len
}

/// How many characters that may stand between quotes the text begins with.
pub fn quote_len(text: &Rest<'_>) -> usize
    ensures value { result ≡ prefix_len is_quotable text.now }
    ensures within { result ≤ length text.now }
{
    let mut len = 0;
    while len < text.len() && is_quotable(text.at(len)) {
        len += 1;
    }
    len
}

/// How many characters of layout stand at the front.
#[tactic(auto, using(crate::proofs::LayoutLemmas::layout_here, crate::proofs::LayoutLemmas::layout_past))]
pub fn layout_len(text: &Rest<'_>) -> usize
    ensures value { result ≡ layout_len text.now false }
    ensures within { result ≤ length text.now }
{
    let mut len = 0;
    let mut in_comment = false;
    while len < text.len() {
        let c = text.at(len);
        if in_comment {
            in_comment = c != '\n';
        } else if is_white_space(c) {} else if c == '#' {
            in_comment = true;
        } else {
            return len;
        }
        len += 1;
    }
    len
}
