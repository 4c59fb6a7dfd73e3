//! What is left of a text after a place.
ghost use Rattle.std.specs.Prelude.{◌≡◌, ◌^◌, ◌<◌, ◌≤◌, length, drop, slice_index, nat_eq};
ghost use Rattle.std.specs.List.{starts_with};

use slif_base::Chars;
use std::marker::Model;

/// The characters of a text from a place on, seen as their list.
#[derive(Drop)]
pub struct Rest<'t> {
    chars: &'t Chars,
    from: usize,
    end: usize,
}

impl<'t> Model for Rest<'t> {
    ghost use Rattle.std.specs.Prelude.{◌≡◌, ◌^◌, ◌<◌, ◌≤◌, List, ℕ, length, drop};

    ghost Value = { List ℕ };

    ghost view = { λ r. drop r.from r.chars.now };

    ghost invariant = { λ r. (r.from ≤ r.end) × (r.end ≡ length r.chars.now) × (r.end < 2 ^ 64) };
}

/// What is left after a place.
pub fn rest_of(chars: &Chars, from: usize) -> Rest<'_>
    requires { from ≤ length chars.now }
    ensures { result ≡ drop from chars.now }
{
    Rest {
        chars,
        from,
        end: chars.len(),
    }
}

impl<'t> Rest<'t> {
    /// How many characters there are.
    pub fn len(&self) -> usize
        ensures { result ≡ length self.now }
    {
        self.end - self.from
    }

    /// A character, by its place.
    pub fn at(&self, i: usize) -> char
        requires { i < length self.now }
        ensures { result ≡ slice_index self.now i }
    {
        self.chars.at(self.from + i)
    }

    /// What is left after some more characters.
    pub fn behind(&self, count: usize) -> Rest<'t>
        requires { count ≤ length self.now }
        ensures rest { result ≡ drop count self.now }
        ensures small { length self.now < 2 ^ 64 }
    {
        rest_of(self.chars, self.from + count)
    }

    /// The character at a place, and U+0000 where there is none.
    pub fn at_or_zero(&self, i: usize) -> char
        ensures { result ≡ slice_index self.now i }
    {
        if i < self.len() { self.at(i) } else { '\0' }
    }

    /// Whether the text begins with these characters.
    pub fn starts_with(&self, prefix: &[char]) -> bool
        ensures { result ≡ starts_with nat_eq self.now prefix.now }
    {
        if prefix.len() > self.len() {
            return false;
        }
        for (i, c) in prefix.iter().enumerate() {
            if self.at(i) != *c {
                return false;
            }
        }
        true
    }
}
