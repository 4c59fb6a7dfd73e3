// Reading the text of a value, without recursion.
ghost use Rattle.std.specs.Prelude.{◌≡◌, ◌≢◌, ◌<◌, ◌≤◌, ◌++◌, ℕ, [], ◌∷◌, length, slice_index, MatchBool, map, chars, codes, string_bytes, IfOk, IfErr, MatchOption};
ghost use Rattle.std.specs.Str.Parse.{AllDigits};
ghost use Rattle.tree_text.specs.Parts.{part_of};
ghost use Rattle.tree_text.specs.Prefixes.{IsNumberEnd, IsNumber, HasNoNumber, NeverBegins, CanEnd, IsQuoted, RefusesQuoted, IsPrefixOf, RefusesPrefix};
ghost use Rattle.tree_text.specs.Reading.{IsRead, RefusesText};

use crate::characters::{behind, read_character};
use crate::{Part, ReadRefusal};
use std::alloc::Global;

/// What may come next: a value, a value or the end of the list that has just begun, or what follows a value.
#[derive(Clone, Copy)]
enum Place {
    Value,
    Items,
    After,
}

fn left_of(rest: &str) -> usize {
    rest.chars().count()
}

/// The digits that a text begins with, and what is after them.
fn split_digits(text: &str) -> (&str, &str)
    ensures whole { text.now ≡ result.0.now ++ result.1.now }
    ensures digits { AllDigits 10 result.0.now }
    ensures end { IsNumberEnd result.1.now }
{
    let bytes = text.as_bytes();
    let mut count = 0;
    while count < bytes.len() && bytes[count].is_ascii_digit() {
        count += 1;
    }
    text.split_at(count)
}

/// Whether there is a zero in front of other digits.
fn has_leading_zero(digits: &str) -> bool
    ensures { MatchBool result ((1 < length digits.now) × (slice_index digits.now 0 ≡ 48))
        (slice_index digits.now 0 ≡ 48 → length digits.now ≤ 1) }
{
    digits.len() > 1 && digits.as_bytes()[0] == b'0'
}

/// The number that a text begins with, and what is after it.
fn read_number(text: &str) -> Option<(u64, &str)>
    ensures { MatchOption result (HasNoNumber text.now) (λ x. IsNumber text.now x.0 x.1.now) }
{
    let (digits, rest) = split_digits(text);
    if has_leading_zero(digits) {
        return None;
    }
    match digits.parse::<u64>() {
        Ok(n) => Some((n, rest)),
        Err(_) => None,
    }
}

/// The text that is quoted in front of a quote, and what is after that.
fn read_quoted(alloc: Global, text: &str) -> Result<(String, &str), ReadRefusal>
    ensures ok { IfOk result (λ x. IsQuoted text.now (chars (string_bytes x.0)) x.1.now) }
    ensures err { IfErr result (RefusesQuoted text.now) }
{
    let mut quoted = String::new(alloc);
    let mut rest = text;
    while let Some((c, left)) = read_character(rest) {
        quoted.push(c)?;
        rest = left;
    }
    match behind('"', rest) {
        Some(left) => Ok((quoted, left)),
        None => Err(ReadRefusal::NotValue {
            left: left_of(rest),
        }),
    }
}

/// What is after `undef`, where a text begins with it.
fn behind_undef(text: &str) -> Option<&str>
    ensures { MatchOption result (NeverBegins text.now (codes "undef"))
        (λ rest. text.now ≡ codes "undef" ++ rest.now) }
{
    let rest = behind('u', text)?;
    let rest = behind('n', rest)?;
    let rest = behind('d', rest)?;
    let rest = behind('e', rest)?;
    behind('f', rest)
}

/// The part that a value begins with, and what is after it.
fn read_prefix(alloc: Global, text: &str) -> Result<(Part, &str), ReadRefusal>
    ensures ok { IfOk result (λ x. IsPrefixOf text.now (part_of x.0) x.1.now) }
    ensures err { IfErr result (RefusesPrefix text.now) }
{
    if let Some(rest) = behind('[', text) {
        return Ok((Part::Open, rest));
    }
    if let Some(rest) = behind_undef(text) {
        return Ok((Part::Undefined, rest));
    }
    if let Some(inside) = behind('"', text) {
        let (quoted, rest) = read_quoted(alloc, inside)?;
        return Ok((Part::Text(quoted), rest));
    }
    match read_number(text) {
        Some((n, rest)) => Ok((Part::Number(n), rest)),
        None => Err(ReadRefusal::NotValue {
            left: left_of(text),
        }),
    }
}

/// Whether a list may end here.
fn can_end(place: Place, depth: usize) -> bool
    ensures { MatchBool result (CanEnd place depth) (¬ (CanEnd place depth)) }
{
    match place {
        Place::Value => false,
        Place::Items | Place::After => depth > 0,
    }
}

/// What is after the end of a list, where it comes next.
fn behind_end(place: Place, depth: usize, text: &str) -> Option<&str>
    ensures { MatchOption result (CanEnd place depth → NeverBegins text.now (93 ∷ []))
        (λ rest. CanEnd place depth × (text.now ≡ 93 ∷ rest.now)) }
{
    if can_end(place, depth) {
        behind(']', text)
    } else {
        None
    }
}

/// What is after a comma, where it comes next in a list.
fn behind_comma(depth: usize, text: &str) -> Option<&str>
    ensures { MatchOption result (0 < depth → NeverBegins text.now (44 ∷ []))
        (λ rest. (0 < depth) × (text.now ≡ 44 ∷ rest.now)) }
{
    if depth > 0 { behind(',', text) } else { None }
}

/// The parts of the value whose text this is.
pub fn read_value(alloc: Global, text: &str) -> Result<Vec<Part>, ReadRefusal>
    ensures ok { IfOk result (λ parts. IsRead text.now (map part_of parts.items)) }
    ensures err { IfErr result (RefusesText text.now) }
{
    let mut parts = Vec::new(alloc);
    let mut depth = 0usize;
    let mut place = Place::Value;
    let mut rest = text;
    loop {
        if let Some(left) = behind_end(place, depth, rest) {
            parts.push(Part::Close)?;
            depth -= 1;
            place = Place::After;
            rest = left;
            continue;
        }
        if let Place::After = place {
            if depth == 0 && rest.is_empty() {
                return Ok(parts);
            }
            match behind_comma(depth, rest) {
                Some(left) => rest = left,
                None => return Err(ReadRefusal::NotValue {
                    left: left_of(rest),
                }),
            }
            place = Place::Value;
            continue;
        }
        let (part, left) = read_prefix(alloc, rest)?;
        rest = left;
        if let Part::Open = part {
            parts.push(Part::Open)?;
            depth += 1;
            place = Place::Items;
            continue;
        }
        parts.push(part)?;
        place = Place::After;
    }
}
