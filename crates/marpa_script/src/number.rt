//! Numbers of lines.
ghost use Rattle.std.specs.Prelude.{◌≡◌, ◌^◌, ◌&&◌, nat_lt, nat_le, length, IsTrue, if◌then◌else◌, Some, None};
ghost use Rattle.std.specs.Char.{is_ascii_digit};
ghost use Rattle.std.specs.List.{list_all};
ghost use Rattle.grammar_model.specs.Limits.{digits_number};
ghost use Rattle.script_model.specs.Parsing as model;

fn are_digits(bytes: &[u8]) -> bool
    ensures { result ≡ list_all is_ascii_digit bytes.now }
{
    bytes.iter().all(|byte| byte.is_ascii_digit())
}

// Whether the word is one to ten ASCII digits.
fn is_number(value: &str) -> bool
    ensures { result ≡ (nat_lt 0 (length value.now) && nat_le (length value.now) 10 && list_all is_ascii_digit value.now) }
{
    !value.is_empty() && value.len() <= 10 && are_digits(value.as_bytes())
}

// The number that digits spell, where it fits.
fn parsed(value: &str) -> Option<u32>
    requires { IsTrue (nat_lt 0 (length value.now) && nat_le (length value.now) 10 && list_all is_ascii_digit value.now) }
    ensures { result ≡ if nat_lt (digits_number value.now) (2 ^ 32) then Some (digits_number value.now) else None }
{
    match value.parse::<u32>() {
        Ok(number) => Some(number),
        Err(_) => None,
    }
}

/// One to ten ASCII digits, as a number of 32 bits.
pub fn number_in(value: &str) -> Option<u32>
    ensures { result ≡ model.number_in value.now }
{
    if !is_number(value) {
        return None;
    }
    parsed(value)
}
