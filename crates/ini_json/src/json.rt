// The syntax tree as JSON.
ghost use Rattle.std.specs.Prelude.{◌≡◌, ◌++◌, ◌<◌, OnOk, IfSome, IfNone, string_bytes, chars, flat_map, map, encode_utf8, codes, true, false};
ghost use Rattle.grammar_model.specs.Text.{hex_digit};
ghost use Rattle.ini_json.specs.Json.{plain_json, character_json, text_json, comma, setting_json, settings_json, group_json, groups_json, file_json, is_escaped};
ghost use Rattle.ini_json.specs.Nodes.{setting_of, group_of};

use crate::node::{Entry, Section};
use std::alloc::AllocError;

fn put(text: &str, out: &mut String) -> Result<(), AllocError>
    ensures { OnOk result (string_bytes out.new ≡ string_bytes out.old ++ text.now) }
{
    out.push_str(text)?;
    Ok(())
}

fn put_char(c: char, out: &mut String) -> Result<(), AllocError>
    ensures { OnOk result (string_bytes out.new ≡ string_bytes out.old ++ encode_utf8 c) }
{
    out.push(c)?;
    Ok(())
}

/// A digit in base 16.
fn hex(n: u8) -> char
    requires { n < 16 }
    ensures { result ≡ hex_digit n }
{
    let digit = if n < 10 { b'0' + n } else { b'a' + (n - 10) };
    char::from(digit)
}

/// The code of a character before the space, which JSON has only escaped.
fn escaped_code(c: char) -> Option<u8>
    ensures some { IfSome result (λ code. code ≡ c) }
    ensures is { IfSome result (λ _. is_escaped c ≡ true) }
    ensures none { IfNone result (is_escaped c ≡ false) }
{
    match c {
        '\0'..='\x1f' => Some(c as u8),
        _ => None,
    }
}

fn put_plain(c: char, out: &mut String) -> Result<(), AllocError>
    ensures { OnOk result (string_bytes out.new ≡ string_bytes out.old ++ plain_json c) }
{
    match escaped_code(c) {
        Some(code) => {
            put("\\u00", out)?;
            put_char(hex(code / 16), out)?;
            put_char(hex(code % 16), out)
        }
        None => put_char(c, out),
    }
}

/// Appends a character as it stands inside quotes.
fn put_character(c: char, out: &mut String) -> Result<(), AllocError>
    ensures { OnOk result (string_bytes out.new ≡ string_bytes out.old ++ character_json c) }
{
    match c {
        '"' => put("\\\"", out),
        '\\' => put("\\\\", out),
        _ => put_plain(c, out),
    }
}

fn put_inside(text: &str, out: &mut String) -> Result<(), AllocError>
    ensures { OnOk result (string_bytes out.new ≡ string_bytes out.old ++ flat_map character_json
        (chars text.now)) }
{
    for c in text.chars() {
        put_character(c, out)?;
    }
    Ok(())
}

fn put_text(text: &str, out: &mut String) -> Result<(), AllocError>
    ensures { OnOk result (string_bytes out.new ≡ string_bytes out.old ++ text_json text.now) }
{
    put("\"", out)?;
    put_inside(text, out)?;
    put("\"", out)
}

/// Appends the comma in front of what follows something.
fn put_comma(follows: bool, out: &mut String) -> Result<(), AllocError>
    ensures { OnOk result (string_bytes out.new ≡ string_bytes out.old ++ comma follows) }
{
    if follows { put(",", out) } else { Ok(()) }
}

fn put_entry(entry: &Entry, out: &mut String) -> Result<(), AllocError>
    ensures { OnOk result (string_bytes out.new ≡ string_bytes out.old ++ setting_json
        (setting_of entry.now)) }
{
    put_text(&entry.name, out)?;
    put(":", out)?;
    put_text(&entry.text, out)
}

fn put_entries(entries: &[Entry], out: &mut String) -> Result<(), AllocError>
    ensures { OnOk result (string_bytes out.new ≡ string_bytes out.old ++ settings_json false
        (map setting_of entries.now)) }
{
    let mut follows = false;
    for entry in entries {
        put_comma(follows, out)?;
        put_entry(entry, out)?;
        follows = true;
    }
    Ok(())
}

fn put_section(section: &Section, out: &mut String) -> Result<(), AllocError>
    ensures { OnOk result (string_bytes out.new ≡ string_bytes out.old ++ group_json
        (group_of section.now)) }
{
    put_text(&section.name, out)?;
    put(":{", out)?;
    put_entries(&section.entries, out)?;
    put("}", out)
}

fn put_sections(sections: &[Section], out: &mut String) -> Result<(), AllocError>
    ensures { OnOk result (string_bytes out.new ≡ string_bytes out.old ++ groups_json false
        (map group_of sections.now)) }
{
    let mut follows = false;
    for section in sections {
        put_comma(follows, out)?;
        put_section(section, out)?;
        follows = true;
    }
    Ok(())
}

/// Appends an object of the sections, each an object of its names and texts.
pub(crate) fn put_json(sections: &[Section], out: &mut String) -> Result<(), AllocError>
    ensures { OnOk result (string_bytes out.new ≡ string_bytes out.old ++ file_json
        (map group_of sections.now)) }
{
    put("{", out)?;
    put_sections(sections, out)?;
    put("}", out)
}
