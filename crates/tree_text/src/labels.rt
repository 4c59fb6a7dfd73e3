// Labels as text.
ghost use Rattle.std.specs.Prelude.{◌≡◌, ◌++◌, OnOk, string_bytes, chars, flat_map};
ghost use Rattle.tree_text.specs.Written.{plain, visible, in_quotes, name_text, quoted_text, rule_label, token_label, label_text};

use crate::Label;
use crate::puts::{control_code, put, put_char, put_code, put_number};
use std::alloc::AllocError;

/// Appends a character that is no line end and no tab, so that it takes one place in a line.
fn push_plain(c: char, out: &mut String) -> Result<(), AllocError>
    ensures { OnOk result (string_bytes out.new ≡ string_bytes out.old ++ plain c) }
{
    match control_code(c) {
        Some(code) => {
            put("\\x{", out)?;
            put_code(code, out)?;
            put("}", out)
        }
        None => put_char(c, out),
    }
}

/// Appends a character so that it takes one place in a line.
fn push_visible(c: char, out: &mut String) -> Result<(), AllocError>
    ensures { OnOk result (string_bytes out.new ≡ string_bytes out.old ++ visible c) }
{
    match c {
        '\n' => put("\\n", out),
        '\r' => put("\\r", out),
        '\t' => put("\\t", out),
        _ => push_plain(c, out),
    }
}

/// Appends a name, or a text without quotes, so that it stands in one line.
pub fn push_name(name: &str, out: &mut String) -> Result<(), AllocError>
    ensures { OnOk result (string_bytes out.new ≡ string_bytes out.old ++ name_text name.now) }
{
    for c in name.chars() {
        push_visible(c, out)?;
    }
    Ok(())
}

/// Appends a character as it stands inside quotes.
fn push_in_quotes(c: char, out: &mut String) -> Result<(), AllocError>
    ensures { OnOk result (string_bytes out.new ≡ string_bytes out.old ++ in_quotes c) }
{
    if c == '"' || c == '\\' {
        put("\\", out)?;
    }
    push_visible(c, out)
}

fn push_inside(text: &str, out: &mut String) -> Result<(), AllocError>
    ensures { OnOk result (string_bytes out.new ≡ string_bytes out.old ++ flat_map in_quotes
        (chars text.now)) }
{
    for c in text.chars() {
        push_in_quotes(c, out)?;
    }
    Ok(())
}

/// Appends a text in quotes, as it is written in one line.
pub(crate) fn push_quoted(text: &str, out: &mut String) -> Result<(), AllocError>
    ensures { OnOk result (string_bytes out.new ≡ string_bytes out.old ++ quoted_text text.now) }
{
    put("\"", out)?;
    push_inside(text, out)?;
    put("\"", out)
}

fn push_rule(name: &str, rule: u64, out: &mut String) -> Result<(), AllocError>
    ensures { OnOk result (string_bytes out.new ≡ string_bytes out.old ++ rule_label name.now rule) }
{
    push_name(name, out)?;
    put(" ", out)?;
    put_number(rule, out)
}

fn push_token(name: &str, text: &str, out: &mut String) -> Result<(), AllocError>
    ensures { OnOk result (string_bytes out.new ≡ string_bytes out.old ++ token_label name.now
        text.now) }
{
    push_name(name, out)?;
    put(" ", out)?;
    push_quoted(text, out)
}

/// Appends a label: a rule's node as `E 0`, a token as `'1' "1"`.
pub fn push_label(label: Label<'_>, out: &mut String) -> Result<(), AllocError>
    ensures { OnOk result (string_bytes out.new ≡ string_bytes out.old ++ label_text label.entry) }
{
    match label {
        Label::Rule { name, rule } => push_rule(name, rule, out),
        Label::Token { name, text } => push_token(name, text, out),
        Label::Nulled { name } => push_name(name, out),
        Label::List => put("[]", out),
        Label::Undefined => put("undef", out),
        Label::Number(n) => put_number(n, out),
        Label::Text(text) => push_quoted(text, out),
    }
}
