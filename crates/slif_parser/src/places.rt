//! Where the tokens of an input lie.
ghost use Rattle.std.specs.Prelude.{◌≡◌, ◌+◌, ◌<◌, All, slice_range, chars as chars_in};
ghost use Rattle.slif_parser.specs.Readings.{end_at, start_at};

use crate::{Reading, Span};
use slif_base::Chars;

/// Where the token before a place ends, and 0 where there is none.
pub fn end_of(spans: &[Span], place: u32) -> u32
    requires { All (λ s. s.start + s.length < 4294967296) spans.now }
    ensures { result ≡ end_at spans.now place }
{
    if place == 0 || place as usize > spans.len() {
        return 0;
    }
    let span = spans[place as usize - 1];
    span.start + span.length
}

/// Where the token at a place begins, and where there is none, the one before ends.
pub fn start_of(spans: &[Span], place: u32) -> u32
    requires { All (λ s. s.start + s.length < 4294967296) spans.now }
    ensures { result ≡ start_at spans.now place }
{
    match spans.get(place as usize) {
        Some(span) => span.start,
        None => end_of(spans, place),
    }
}

/// The text between two characters, as much of it as there is.
pub fn text_between(chars: &Chars, start: u32, end: u32) -> &str
    ensures { chars_in result.now ≡ slice_range chars.now start end }
{
    let end = (end as usize).min(chars.len());
    let start = (start as usize).min(end);
    chars.text(start, end)
}

impl<'g> Reading<'g> {
    /// The character where the token at a place begins; where there is none, where the one before ends.
    pub fn start(&self, place: u32) -> u32
        ensures { result ≡ start_at self.now.spans place }
    {
        start_of(&self.tokens.spans, place)
    }

    /// The character where the token before a place ends; 0 where there is no such token.
    pub fn end(&self, place: u32) -> u32
        ensures { result ≡ end_at self.now.spans place }
    {
        end_of(&self.tokens.spans, place)
    }

    /// The text between two characters, as much of it as is in the input.
    pub fn text(&self, start: u32, end: u32) -> &str
        ensures { chars_in result.now ≡ slice_range self.now.characters start end }
    {
        text_between(&self.chars, start, end)
    }
}
