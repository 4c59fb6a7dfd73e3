// A value as JSON.
ghost use Rattle.std.specs.Prelude.{◌≡◌, ◌++◌, OnOk, string_bytes, chars, flat_map, map, codes, false};
ghost use Rattle.grammar_model.specs.Values.{Value};
ghost use Rattle.tree_text.specs.Parts.{part_of, parts_of};
ghost use Rattle.tree_text.specs.Written as written;
ghost use Rattle.tree_text.specs.Written.{json_plain, json_character, json_string, part_json, comma_before, parts_json, json_of};

use crate::Part;
use crate::puts::{control_code, put, put_char, put_code, put_number};
use std::alloc::AllocError;

/// Appends a character that has no escape of its own.
fn push_plain(c: char, out: &mut String) -> Result<(), AllocError>
    ensures { OnOk result (string_bytes out.new ≡ string_bytes out.old ++ json_plain c) }
{
    match control_code(c) {
        Some(code) => {
            put("\\u00", out)?;
            put_code(code, out)
        }
        None => put_char(c, out),
    }
}

/// Appends a character as it stands inside quotes.
fn push_character(c: char, out: &mut String) -> Result<(), AllocError>
    ensures { OnOk result (string_bytes out.new ≡ string_bytes out.old ++ json_character c) }
{
    match c {
        '"' => put("\\\"", out),
        '\\' => put("\\\\", out),
        '\n' => put("\\n", out),
        '\r' => put("\\r", out),
        '\t' => put("\\t", out),
        _ => push_plain(c, out),
    }
}

fn push_inside(text: &str, out: &mut String) -> Result<(), AllocError>
    ensures { OnOk result (string_bytes out.new ≡ string_bytes out.old ++ flat_map json_character
        (chars text.now)) }
{
    for c in text.chars() {
        push_character(c, out)?;
    }
    Ok(())
}

fn push_string(text: &str, out: &mut String) -> Result<(), AllocError>
    ensures { OnOk result (string_bytes out.new ≡ string_bytes out.old ++ json_string text.now) }
{
    put("\"", out)?;
    push_inside(text, out)?;
    put("\"", out)
}

fn push_part(part: &Part, out: &mut String) -> Result<(), AllocError>
    ensures { OnOk result (string_bytes out.new ≡ string_bytes out.old ++ part_json
        (part_of part.now)) }
{
    match part {
        Part::Undefined => put("null", out),
        Part::Number(n) => put_number(*n, out),
        Part::Text(text) => push_string(text.as_str(), out),
        Part::Open => put("[", out),
        Part::Close => put("]", out),
    }
}

/// Appends the comma in front of a part, where something stands before it.
fn push_comma(follows: bool, part: &Part, out: &mut String) -> Result<(), AllocError>
    ensures { OnOk result (string_bytes out.new ≡ string_bytes out.old ++ comma_before follows
        (part_of part.now)) }
{
    match part {
        Part::Close => Ok(()),
        _ if follows => put(",", out),
        _ => Ok(()),
    }
}

/// Whether something may stand right behind a part.
fn is_followed(part: &Part) -> bool
    ensures { result ≡ written.is_followed (part_of part.now) }
{
    match part {
        Part::Open => false,
        _ => true,
    }
}

fn push_parts(parts: &[Part], out: &mut String) -> Result<(), AllocError>
    ensures { OnOk result (string_bytes out.new ≡ string_bytes out.old ++ parts_json false
        (map part_of parts.now)) }
{
    let mut follows = false;
    for part in parts {
        push_comma(follows, part, out)?;
        push_part(part, out)?;
        follows = is_followed(part);
    }
    Ok(())
}

/// Appends the value of these parts as a line of JSON: lists as arrays, `undef` as null.
pub fn push_json(parts: &[Part], out: &mut String) -> Result<(), AllocError>
    ensures { (value : Value) → map part_of parts.now ≡ parts_of value →
        OnOk result (string_bytes out.new ≡ string_bytes out.old ++ (json_of value ++ codes "\n")) }
{
    push_parts(parts, out)?;
    put("\n", out)
}
