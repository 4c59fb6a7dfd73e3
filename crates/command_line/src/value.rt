// The values of options.
ghost use Rattle.std.specs.Prelude.{◌≡◌, ◌^◌, ◌&&◌, nat_lt, nat_le, length, IsTrue, if◌then◌else◌, option_copied};
ghost use Rattle.std.specs.Char.{is_ascii_digit};
ghost use Rattle.std.specs.List.{list_all};
ghost use Rattle.language_model.specs.Building.{digits_number};
ghost use Rattle.words_model.specs.Words as model;

use grammar_model::{Ranking, Show};

/// A name or a text that is not empty and not `-`.
pub fn name_or_text(value: &str) -> Option<&str>
    ensures { option_copied result ≡ model.name_or_text value.now }
{
    if value.is_empty() || value == "-" {
        None
    } else {
        Some(value)
    }
}

fn are_digits(bytes: &[u8]) -> bool
    ensures { result ≡ list_all is_ascii_digit bytes.now }
{
    bytes.iter().all(|byte| byte.is_ascii_digit())
}

// Whether the text is one to ten ASCII digits.
fn is_number(value: &str) -> bool
    ensures { result ≡ (nat_lt 0 (length value.now) && nat_le (length value.now) 10 && list_all is_ascii_digit value.now) }
{
    !value.is_empty() && value.len() <= 10 && are_digits(value.as_bytes())
}

// The number that digits spell, where it fits.
fn parsed(value: &str) -> Option<u32>
    requires { IsTrue (nat_lt 0 (length value.now) && nat_le (length value.now) 10 && list_all is_ascii_digit value.now) }
    ensures { result ≡ if nat_lt (digits_number value.now) (2 ^ 32) then Some (digits_number value.now) else None }
{
    match value.parse::<u32>() {
        Ok(number) => Some(number),
        Err(_) => None,
    }
}

/// A number of one to ten ASCII digits.
pub fn number_from(least: u32, most: u32, value: &str) -> Option<u32>
    ensures { result ≡ model.number_from least most value.now }
{
    if !is_number(value) {
        return None;
    }
    let number = parsed(value)?;
    if least <= number && number <= most {
        Some(number)
    } else {
        None
    }
}

/// The ranking of that name: `none`, `rule` or `high`.
pub fn ranking_of(value: &str) -> Option<Ranking>
    ensures { result ≡ model.ranking_of value.now }
{
    match value {
        "none" => Some(Ranking::None),
        "rule" => Some(Ranking::Rule),
        "high" => Some(Ranking::High),
        _ => None,
    }
}

/// The kind of values of that name: `array` or `tree`.
pub fn show_of(value: &str) -> Option<Show>
    ensures { result ≡ model.show_of value.now }
{
    match value {
        "array" => Some(Show::Array),
        "tree" => Some(Show::Tree),
        _ => None,
    }
}
