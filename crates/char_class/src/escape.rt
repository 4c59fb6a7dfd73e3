//! Escapes and POSIX pieces.
ghost use Rattle.std.specs.Prelude.{◌≡◌, ◌≤◌, ◌<◌, ◌+◌, ℕ, length, slice_index, IsTrue, nat_eq, take, drop, bytes_eq, fold};
ghost use Rattle.std.specs.List.{prefix_len};
ghost use Rattle.std.specs.Char.{is_ascii_hexdigit, digit_value};
ghost use Rattle.language_model.specs.Classes.{is_posix_letter, posix_len, posix_property, posix_piece, hex_number, one_or_bad, hex_piece, escape_piece};

use language_model::{ClassFault, ClassItem, Piece, Property};

const DIGIT: &[char] = &['d', 'i', 'g', 'i', 't'];

const SPACE: &[char] = &['s', 'p', 'a', 'c', 'e'];

const WORD: &[char] = &['w', 'o', 'r', 'd'];

const ALPHA: &[char] = &['a', 'l', 'p', 'h', 'a'];

const ALNUM: &[char] = &['a', 'l', 'n', 'u', 'm'];

const UPPER: &[char] = &['u', 'p', 'p', 'e', 'r'];

const LOWER: &[char] = &['l', 'o', 'w', 'e', 'r'];

const XDIGIT: &[char] = &['x', 'd', 'i', 'g', 'i', 't'];

fn is_posix_letter(c: char) -> bool
    ensures { result ≡ is_posix_letter c }
{
    c.is_ascii_alphabetic() || c == '^'
}

fn letters_len(text: &[char]) -> usize
    ensures value { result ≡ prefix_len is_posix_letter text.now }
    ensures within { result ≤ length text.now }
{
    let mut len = 0;
    while len < text.len() && is_posix_letter(text[len]) {
        len += 1;
    }
    len
}

fn hex_len(text: &[char]) -> usize
    ensures value { result ≡ prefix_len is_ascii_hexdigit text.now }
    ensures within { result ≤ length text.now }
{
    let mut len = 0;
    while len < text.len() && text[len].is_ascii_hexdigit() {
        len += 1;
    }
    len
}

/// How many letters the POSIX piece at the front has, or 0.
#[tactic(auto, unfolding(language_model::specs::Classes::posix_len))]
pub fn posix_len(text: &[char]) -> usize
    ensures value { result ≡ posix_len text.now }
    ensures within { 0 < result → result + 4 ≤ length text.now }
{
    if !text.starts_with(&['[', ':']) {
        return 0;
    }
    let len = letters_len(&text[2..]);
    if text[2 + len..].starts_with(&[':', ']']) {
        len
    } else {
        0
    }
}

fn posix_property(name: &[char]) -> Option<Property>
    ensures { result ≡ posix_property name.now }
{
    if name == DIGIT {
        Some(Property::Digit)
    } else if name == SPACE {
        Some(Property::Space)
    } else if name == WORD {
        Some(Property::Word)
    } else if name == ALPHA {
        Some(Property::Alpha)
    } else if name == ALNUM {
        Some(Property::Alnum)
    } else if name == UPPER {
        Some(Property::Upper)
    } else if name == LOWER {
        Some(Property::Lower)
    } else if name == XDIGIT {
        Some(Property::HexDigit)
    } else {
        None
    }
}

/// The characters of a POSIX class, by its name.
pub fn posix_piece(name: &[char]) -> Piece
    ensures { result ≡ posix_piece name.now }
{
    match posix_property(name) {
        Some(property) => Piece::Set(ClassItem::Having(property)),
        None => Piece::Bad(ClassFault::BadPosix),
    }
}

/// The character at a place, or U+0000 past the end.
pub fn char_at(text: &[char], i: usize) -> char
    ensures { result ≡ slice_index text.now i }
{
    if i < text.len() { text[i] } else { '\0' }
}

fn hex_digit(c: char) -> u32
    requires { IsTrue (is_ascii_hexdigit c) }
    ensures value { result ≡ digit_value c }
    ensures below { result < 16 }
{
    c.to_digit(16).unwrap_or(0)
}

fn hex_number(digits: &[char]) -> u32
    requires few { length digits.now ≤ 6 }
    requires hex { (k : ℕ) → k < length digits.now →
        IsTrue (is_ascii_hexdigit (slice_index digits.now k)) }
    ensures { result ≡ hex_number digits.now }
{
    let mut number = 0;
    for c in digits {
        number = number * 16 + hex_digit(*c);
    }
    number
}

fn one_or_bad(code: u32, len: usize) -> (Piece, usize)
    ensures { result ≡ one_or_bad code len }
{
    match char::from_u32(code) {
        Some(c) => (Piece::One(c), len),
        None => (Piece::Bad(ClassFault::BadEscape), len),
    }
}

/// What `\x` and the text after it spell, and how many characters they have.
#[tactic(auto, unfolding(language_model::specs::Classes::hex_piece))]
pub fn hex_piece(text: &[char]) -> (Piece, usize)
    ensures value { result ≡ hex_piece text.now }
    ensures moves { 0 < result.1 }
    ensures within { result.1 ≤ 10 }
{
    if char_at(text, 2) == '{' {
        let digits = &text[3..];
        let len = hex_len(digits);
        if 0 < len && len <= 6 && char_at(text, 3 + len) == '}' {
            return one_or_bad(hex_number(&digits[..len]), 4 + len);
        }
    } else if char_at(text, 2).is_ascii_hexdigit() && char_at(text, 3).is_ascii_hexdigit() {
        let code = 16 * hex_digit(char_at(text, 2)) + hex_digit(char_at(text, 3));
        return (Piece::One(code as u8 as char), 4);
    }
    (Piece::Bad(ClassFault::BadEscape), 1)
}

/// What a backslash and `c` spell, where `c` is not `x`.
#[tactic(auto, unfolding(language_model::specs::Classes::escape_piece))]
pub fn escape_piece(c: char) -> Piece
    ensures { result ≡ escape_piece c }
{
    match c {
        'n' => Piece::One('\n'),
        'r' => Piece::One('\r'),
        't' => Piece::One('\t'),
        'd' => Piece::Set(ClassItem::Having(Property::Digit)),
        's' => Piece::Set(ClassItem::Having(Property::Space)),
        'w' => Piece::Set(ClassItem::Having(Property::Word)),
        'D' => Piece::Set(ClassItem::Lacking(Property::Digit)),
        'S' => Piece::Set(ClassItem::Lacking(Property::Space)),
        'W' => Piece::Set(ClassItem::Lacking(Property::Word)),
        _ if c.is_ascii_punctuation() => Piece::One(c),
        _ => Piece::Bad(ClassFault::BadEscape),
    }
}
