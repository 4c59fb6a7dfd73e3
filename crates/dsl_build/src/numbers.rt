//! What adverbs say of rules and lexemes.
ghost use Rattle.std.specs.Prelude.{◌≡◌, ◌≤◌, ◌≤ℤ◌, pos};
ghost use Rattle.std.specs.Char.{digit_value};
ghost use Rattle.language_model.specs.Building as building;
ghost use Rattle.language_model.specs.Building.{digits_number};
ghost use Rattle.dsl_statement.specs.Statements.{adverbs_of};
ghost use Rattle.dsl_build.specs.Ready.{IsSmall};

use dsl_faults::value_of;
use dsl_statement::Adverb;
use grammar_model::Assoc;

fn digit_value(byte: u8) -> u32
    ensures value { result ≡ digit_value byte }
    ensures small { result ≤ 36 }
{
    match byte {
        b'0'..=b'9' => (byte - b'0') as u32,
        b'A'..=b'Z' => (byte - b'A') as u32 + 10,
        b'a'..=b'z' => (byte - b'a') as u32 + 10,
        _ => 36,
    }
}

// The number that digits spell, which is at most a million.
fn digits_number(digits: &[u8]) -> i32
    requires { digits_number digits.now ≤ 1000000 }
    ensures value { result ≡ pos (digits_number digits.now) }
    ensures small { result ≤ℤ pos 1000000 }
    ensures natural { pos 0 ≤ℤ result }
{
    let mut number = 0u32;
    for digit in digits {
        number = 10 * number + digit_value(*digit);
    }
    number as i32
}

/// The number of a token of digits, with a sign or without.
pub fn read_number(text: &str) -> i32
    requires { IsSmall (building.number_of text.now) }
    ensures { result ≡ building.number_of text.now }
{
    match text.as_bytes() {
        [] => 0,
        [b'-', digits @ ..] => -digits_number(digits),
        [b'+', digits @ ..] => digits_number(digits),
        digits => digits_number(digits),
    }
}

/// The rank that adverbs tell.
pub fn rank_of(adverbs: &[Adverb]) -> i32
    requires { IsSmall (building.rank_of (adverbs_of adverbs.now)) }
    ensures { result ≡ building.rank_of (adverbs_of adverbs.now) }
{
    match value_of("rank", adverbs) {
        Some(value) => read_number(value.content.as_str()),
        None => 0,
    }
}

/// Whether the adverb of this name has this value.
pub fn says(name: &str, text: &str, adverbs: &[Adverb]) -> bool
    ensures { result ≡ building.says name.now text.now (adverbs_of adverbs.now) }
{
    match value_of(name, adverbs) {
        Some(value) => value.content.as_str() == text,
        None => false,
    }
}

/// The associativity that adverbs tell.
pub fn assoc_of(adverbs: &[Adverb]) -> Assoc
    ensures { result ≡ building.assoc_of (adverbs_of adverbs.now) }
{
    if says("assoc", "right", adverbs) {
        Assoc::Right
    } else if says("assoc", "group", adverbs) {
        Assoc::Group
    } else {
        Assoc::Left
    }
}
