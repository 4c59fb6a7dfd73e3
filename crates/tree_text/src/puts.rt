// Pieces that are appended to a text.
ghost use Rattle.std.specs.Prelude.{◌≡◌, ◌++◌, ◌<◌, ◌≤◌, OnOk, IfSome, IfNone, string_bytes, decimal, encode_utf8, true, false};
ghost use Rattle.grammar_model.specs.Text as text_model;
ghost use Rattle.grammar_model.specs.Text.{hex_digit};
ghost use Rattle.tree_text.specs.Written.{code_digits};

use std::alloc::AllocError;
use std::fmt::Write;

pub(crate) fn put(text: &str, out: &mut String) -> Result<(), AllocError>
    ensures { OnOk result (string_bytes out.new ≡ string_bytes out.old ++ text.now) }
{
    out.push_str(text)?;
    Ok(())
}

pub(crate) fn put_char(c: char, out: &mut String) -> Result<(), AllocError>
    ensures { OnOk result (string_bytes out.new ≡ string_bytes out.old ++ encode_utf8 c) }
{
    out.push(c)?;
    Ok(())
}

pub(crate) fn put_number(n: u64, out: &mut String) -> Result<(), AllocError>
    ensures { OnOk result (string_bytes out.new ≡ string_bytes out.old ++ decimal n) }
{
    write!(out, "{n}")?;
    Ok(())
}

/// A digit in base 16.
fn hex(n: u8) -> char
    requires { n < 16 }
    ensures { result ≡ hex_digit n }
{
    let digit = if n < 10 { b'0' + n } else { b'a' + (n - 10) };
    char::from(digit)
}

/// Appends a code, by two digits in base 16.
pub(crate) fn put_code(code: u8, out: &mut String) -> Result<(), AllocError>
    ensures { OnOk result (string_bytes out.new ≡ string_bytes out.old ++ code_digits code) }
{
    put_char(hex(code / 16), out)?;
    put_char(hex(code % 16), out)
}

/// The code of a control character.
pub(crate) fn control_code(c: char) -> Option<u8>
    ensures some { IfSome result (λ code. code ≡ c) }
    ensures is { IfSome result (λ _. text_model.is_control c ≡ true) }
    ensures none { IfNone result (text_model.is_control c ≡ false) }
{
    match c {
        '\0'..='\x1f' | '\x7f'..='\u{9f}' => Some(c as u8),
        _ => None,
    }
}
