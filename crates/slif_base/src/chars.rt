// The characters of a text.
ghost use Rattle.std.specs.Prelude.{◌≡◌, ◌^◌, ◌<◌, ◌≤◌, length, take, slice_range, slice_index, encode_utf8_all, string_bytes, IsUtf8, MatchOption, IfOk, IfErr, OnOk, OnErr};
ghost use Rattle.std.specs.Str.{IsAscii, IsCharBoundary, chars};
ghost use Rattle.slif_base.specs.Characters.{starts_from, RefusesText};
ghost use Rattle.outside_model.specs.Places.{line_after, column_after};

use std::alloc::{AllocError, Global};
use std::marker::Model;
use thiserror::Error;

/// Why bytes are no text.
#[derive(Clone, Copy, Debug, PartialEq, Eq, Error)]
pub enum TextRefusal {
    /// The first `at` bytes are the longest prefix that is UTF-8.
    #[error("not UTF-8 at byte {at}")]
    NotUtf8 { at: usize },
    /// There was no memory, or the text has 4,294,967,296 bytes or more.
    #[error("out of memory")]
    NoMemory,
}

impl From<AllocError> for TextRefusal {
    ghost use Rattle.slif_base.specs.declared.chars.TextRefusal.TheVariants.{NoMemory};

    ghost from_gives = { λ _ refusal. refusal ≡ NoMemory };

    fn from(_error: AllocError) -> Self {
        TextRefusal::NoMemory
    }
}

/// A text, seen as the list of its characters, any part of which is found at once.
#[derive(Drop)]
pub struct Chars {
    text: String,
    // where each character begins, and where the text ends; none where each character is one byte
    starts: Option<Vec<u32>>,
}

impl Model for Chars {
    ghost use Rattle.std.specs.Prelude.{◌≡◌, List, ℕ, string_bytes, MatchOption};
    ghost use Rattle.std.specs.Str.{chars, IsAscii};

    ghost Value = { List ℕ };

    ghost use Rattle.slif_base.specs.Characters.{starts_from};

    ghost view = { λ t. chars (string_bytes t.text) };

    ghost invariant = { λ t. MatchOption t.starts (IsAscii (string_bytes t.text)) (λ starts. starts.items ≡ starts_from 0 (chars (string_bytes t.text))) };
}

/// Where each character begins, and where the text ends.
fn starts_of(alloc: Global, text: &str) -> Result<Vec<u32>, AllocError>
    requires { length text.now < 2 ^ 32 }
    ensures { IfOk result (λ starts. starts.items ≡ starts_from 0 (chars text.now)) }
{
    let mut starts = Vec::new(alloc);
    let mut at = 0u32;
    for c in text.chars() {
        starts.push(at)?;
        at += c.len_utf8() as u32;
    }
    starts.push(at)?;
    Ok(starts)
}

// Nothing, for a text whose places 32 bits tell. A longer one counts as too large for memory.
fn fits(text: &str) -> Result<(), AllocError>
    ensures ok { OnOk result (length text.now < 2 ^ 32) }
    ensures err { OnErr result (2 ^ 32 ≤ length text.now) }
{
    if text.len() > u32::MAX as usize {
        return Err(AllocError);
    }
    Ok(())
}

/// Where each character begins, and where the text ends; none where each character is one byte.
fn known_starts(alloc: Global, text: &str) -> Result<Option<Vec<u32>>, AllocError>
    ensures { IfOk result (λ known. MatchOption known (IsAscii text.now) (λ starts. starts.items ≡
        starts_from 0 (chars text.now))) }
{
    if text.is_ascii() {
        return Ok(None);
    }
    fits(text)?;
    let starts = starts_of(alloc, text)?;
    Ok(Some(starts))
}

/// The characters of a text.
fn characters(alloc: Global, text: String) -> Result<Chars, AllocError>
    ensures { IfOk result (λ all. all ≡ chars (string_bytes text)) }
{
    let starts = known_starts(alloc, text.as_str())?;
    Ok(Chars { text, starts })
}

/// The characters of these bytes.
pub fn chars_of(alloc: Global, bytes: &[u8]) -> Result<Chars, TextRefusal>
    ensures utf8 { OnOk result (IsUtf8 bytes.now) }
    ensures ok { IfOk result (λ text. text ≡ chars bytes.now) }
    ensures refused { IfErr result (RefusesText bytes.now) }
{
    let text = match std::str::from_utf8(bytes) {
        Ok(text) => text,
        Err(error) => {
            return Err(TextRefusal::NotUtf8 {
                at: error.valid_up_to(),
            });
        }
    };
    let text = String::from_str(alloc, text)?;
    Ok(characters(alloc, text)?)
}

/// The characters of these bytes, which are moved and not copied.
pub fn chars_from(alloc: Global, bytes: Vec<u8>) -> Result<Chars, TextRefusal>
    ensures utf8 { OnOk result (IsUtf8 bytes.items) }
    ensures ok { IfOk result (λ text. text ≡ chars bytes.items) }
    ensures refused { IfErr result (RefusesText bytes.items) }
{
    match String::from_utf8(bytes) {
        Ok(text) => Ok(characters(alloc, text)?),
        Err(error) => Err(refusal_of(error.as_bytes())),
    }
}

/// Why these bytes are no text.
fn refusal_of(bytes: &[u8]) -> TextRefusal
    requires { ¬ (IsUtf8 bytes.now) }
    ensures { RefusesText bytes.now result }
{
    match std::str::from_utf8(bytes) {
        Ok(_) => unreachable!(),
        Err(error) => TextRefusal::NotUtf8 {
            at: error.valid_up_to(),
        },
    }
}

/// The line and the column after a text.
fn line_column_behind(text: &str) -> (u32, u32)
    requires { length (chars text.now) < 4294967295 }
    ensures line { result.0 ≡ line_after (chars text.now) }
    ensures column { result.1 ≡ column_after (chars text.now) }
{
    let mut line = 1u32;
    let mut column = 1u32;
    for c in text.chars() {
        if c == '\n' {
            line += 1;
            column = 1;
        } else {
            column += 1;
        }
    }
    (line, column)
}

impl Chars {
    /// How many characters there are.
    pub fn len(&self) -> usize
        ensures { result ≡ length self.now }
    {
        match &self.starts {
            Some(starts) => starts.len() - 1,
            None => self.text.len(),
        }
    }

    /// The byte where the character at a place begins, or where the text ends.
    fn start(&self, place: usize) -> usize
        requires { place ≤ length self.now }
        ensures { result ≡ length (encode_utf8_all (take place self.now)) }
    {
        match &self.starts {
            Some(starts) => starts[place] as usize,
            None => place,
        }
    }

    /// The text from one place to another.
    pub fn text(&self, from: usize, to: usize) -> &str
        requires order { from ≤ to }
        requires to { to ≤ length self.now }
        ensures bytes { result.now ≡ encode_utf8_all (slice_range self.now from to) }
        ensures characters { chars result.now ≡ slice_range self.now from to }
    {
        let start = self.start(from);
        let end = self.start(to);
        part(self.text.as_str(), start, end)
    }

    /// The character at a place.
    pub fn at(&self, i: usize) -> char
        requires { i < length self.now }
        ensures { result ≡ slice_index self.now i }
    {
        match &self.starts {
            Some(_) => self.char_at(i),
            None => self.text.as_bytes()[i] as char,
        }
    }

    // The character at a place, decoded.
    fn char_at(&self, i: usize) -> char
        requires { i < length self.now }
        ensures { result ≡ slice_index self.now i }
    {
        match self.text(i, self.len()).chars().next() {
            Some(c) => c,
            None => '\0',
        }
    }

    /// The line and the column of a place, or of the end, both from 1. A line ends with LF; columns count characters.
    pub fn line_column(&self, at: usize) -> (u32, u32)
        requires within { at ≤ length self.now }
        requires small { at < 4294967295 }
        ensures line { result.0 ≡ line_after (take at self.now) }
        ensures column { result.1 ≡ column_after (take at self.now) }
    {
        line_column_behind(self.text(0, at))
    }
}

/// A part of a text, by bytes.
fn part(text: &str, start: usize, end: usize) -> &str
    requires order { start ≤ end }
    requires start { IsCharBoundary text.now start }
    requires end { IsCharBoundary text.now end }
    ensures { result.now ≡ slice_range text.now start end }
{
    &text[start..end]
}
