// What is told, as it stands in one line.
ghost use Rattle.std.specs.Prelude.{◌≡◌, ◌<◌, ◌++◌, OnOk, IsTrue, chars, flat_map, string_bytes};
ghost use Rattle.grammar_model.specs.Text.{escaped, hex_digit, is_control};
ghost use Rattle.run_model.specs.Telling.{in_line};

use std::alloc::AllocError;

/// Appends the characters of a text as they stand in a message: one that controls a terminal or ends a line is escaped.
pub fn append_in_line(text: &str, line: &mut String) -> Result<(), AllocError>
    ensures { OnOk result (string_bytes line.new ≡
        string_bytes line.old ++ flat_map in_line (chars text.now)) }
{
    for c in text.chars() {
        append_char(c, line)?;
    }
    Ok(())
}

fn append_char(c: char, line: &mut String) -> Result<(), AllocError>
    ensures { OnOk result (string_bytes line.new ≡ string_bytes line.old ++ in_line c) }
{
    match c {
        '\0'..='\x1f' | '\x7f'..='\u{9f}' => append_control(c, line),
        '\u{2028}' => line.push_str("\\x{2028}"),
        '\u{2029}' => line.push_str("\\x{2029}"),
        _ => line.push(c),
    }
}

// Appends a control character as it stands in the text of a value.
fn append_control(c: char, line: &mut String) -> Result<(), AllocError>
    requires { IsTrue (is_control c) }
    ensures { OnOk result (string_bytes line.new ≡ string_bytes line.old ++ escaped c) }
{
    match c {
        '\n' => line.push_str("\\n"),
        '\r' => line.push_str("\\r"),
        '\t' => line.push_str("\\t"),
        _ => {
            let code = c as u8;
            line.push_str("\\x{")?;
            line.push(hex(code / 16))?;
            line.push(hex(code % 16))?;
            line.push('}')
        }
    }
}

// A digit in base 16.
fn hex(n: u8) -> char
    requires { n < 16 }
    ensures { result ≡ hex_digit n }
{
    let digit = if n < 10 { b'0' + n } else { b'a' + (n - 10) };
    char::from(digit)
}
