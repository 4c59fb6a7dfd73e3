// The text of a value.
ghost use Rattle.std.specs.Prelude.{◌≡◌, ◌<◌, ◌++◌, ◌∷◌, [], length, chars, decimal, OnOk, OnErr};
ghost use Rattle.std.specs.List.{flat_map};
ghost use Rattle.grammar_model.specs.Values.{Text};
ghost use Rattle.grammar_model.specs.Text.{escaped, hex_digit, text_of};
ghost use Rattle.value_text.specs.Nodes.{value_at};
ghost use Rattle.value_text.specs.Parts.{comma, rest_text, AreOpen, IsExtended};
ghost use Rattle.value_text.specs.Escapes.{bytes_of, escaped_by};

use crate::pool::Part;
use crate::{NoMemory, Pool, ValueId};
use itoa::Buffer;

/// A list whose end is not written yet.
#[derive(Drop)]
struct Open<'p> {
    rest: &'p [ValueId],
    follows: bool,
}

/// Appends bytes.
fn append(bytes: &[u8], out: &mut Vec<u8>) -> Result<(), NoMemory>
    ensures ok { OnOk result (out.new.items ≡ out.old.items ++ bytes.now) }
    ensures extended { IsExtended out.old.items out.new.items }
{
    out.extend_from_slice(bytes)?;
    Ok(())
}

/// Appends a byte.
fn append_byte(byte: u8, out: &mut Vec<u8>) -> Result<(), NoMemory>
    ensures ok { OnOk result (out.new.items ≡ out.old.items ++ byte ∷ []) }
    ensures extended { IsExtended out.old.items out.new.items }
{
    out.push(byte)?;
    Ok(())
}

/// A digit in base 16.
fn hex(n: u8) -> u8
    requires { n < 16 }
    ensures { result ≡ hex_digit n }
{
    if n < 10 { b'0' + n } else { b'a' + (n - 10) }
}

/// How a character is escaped inside a text's quotes.
#[derive(Clone, Copy)]
enum Escape {
    /// a backslash and this byte
    Mark(u8),
    /// its code in base 16
    Code(u8),
}

/// How a character is escaped, or that it stands as it is.
fn escape_of(c: char) -> Option<Escape>
    ensures { escaped c ≡ escaped_by c result }
{
    match c {
        '\\' | '"' | '$' | '@' => Some(Escape::Mark(c as u8)),
        '\n' => Some(Escape::Mark(b'n')),
        '\r' => Some(Escape::Mark(b'r')),
        '\t' => Some(Escape::Mark(b't')),
        '\0'..='\x1f' | '\x7f'..='\u{9f}' => Some(Escape::Code(c as u8)),
        _ => None,
    }
}

/// Appends the bytes of an escape.
fn append_escape(escape: Escape, out: &mut Vec<u8>) -> Result<(), NoMemory>
    ensures ok { OnOk result (out.new.items ≡ out.old.items ++ bytes_of escape) }
    ensures extended { IsExtended out.old.items out.new.items }
{
    match escape {
        Escape::Mark(byte) => append(&[b'\\', byte], out),
        Escape::Code(code) => append(
            &[b'\\', b'x', b'{', hex(code / 16), hex(code % 16), b'}'],
            out,
        ),
    }
}

/// Appends what stands before an escape, and the escape.
fn append_escaped(plain: &[u8], escape: Escape, out: &mut Vec<u8>) -> Result<(), NoMemory>
    ensures ok { OnOk result (out.new.items ≡ out.old.items ++ (plain.now ++ bytes_of escape)) }
    ensures extended { IsExtended out.old.items out.new.items }
{
    append(plain, out)?;
    append_escape(escape, out)
}

/// Appends a text as it stands in its quotes. What stands between two escapes is appended at once.
fn append_inside(text: &str, out: &mut Vec<u8>) -> Result<(), NoMemory>
    ensures ok { OnOk result (out.new.items ≡ out.old.items ++ flat_map escaped (chars text.now)) }
    ensures extended { IsExtended out.old.items out.new.items }
{
    let bytes = text.as_bytes();
    let mut from = 0;
    for (at, c) in text.char_indices() {
        if let Some(escape) = escape_of(c) {
            append_escaped(&bytes[from..at], escape, out)?;
            from = at + c.len_utf8();
        }
    }
    append(&bytes[from..], out)
}

/// Appends a text in its quotes.
fn append_quoted(text: &str, out: &mut Vec<u8>) -> Result<(), NoMemory>
    ensures ok { OnOk result (out.new.items ≡ out.old.items ++ text_of (Text text.now)) }
    ensures extended { IsExtended out.old.items out.new.items }
{
    append_byte(b'"', out)?;
    append_inside(text, out)?;
    append_byte(b'"', out)
}

/// Appends a number's digits.
fn append_number(n: u64, out: &mut Vec<u8>) -> Result<(), NoMemory>
    ensures ok { OnOk result (out.new.items ≡ out.old.items ++ decimal n) }
    ensures longer { OnOk result (length out.old.items < length out.new.items) }
    ensures extended { IsExtended out.old.items out.new.items }
{
    append(Buffer::new().format(n).as_bytes(), out)
}

/// Appends a comma, where an item is before the next one.
fn append_comma(follows: bool, out: &mut Vec<u8>) -> Result<(), NoMemory>
    ensures ok { OnOk result (out.new.items ≡ out.old.items ++ comma follows) }
    ensures extended { IsExtended out.old.items out.new.items }
{
    if follows {
        append_byte(b',', out)
    } else {
        Ok(())
    }
}

/// Appends a value, or the beginning of a list, which is then open.
fn append_start<'p>(
    pool: &'p Pool,
    id: ValueId,
    lists: &mut Vec<Open<'p>>,
    out: &mut Vec<u8>,
) -> Result<(), NoMemory>
    requires id { id < length pool.now }
    requires lists { AreOpen pool.now lists.old.items }
    ensures ok { OnOk result (out.new.items ++ rest_text pool.now lists.new.items ≡
        out.old.items ++ (text_of (value_at pool.now id) ++ rest_text pool.now lists.old.items)) }
    ensures longer { OnOk result (length out.old.items < length out.new.items) }
    ensures extended { IsExtended out.old.items out.new.items }
    ensures lists { AreOpen pool.now lists.new.items }
{
    match pool.part(id) {
        Part::Undefined => append(b"undef", out),
        Part::Number(n) => append_number(n, out),
        Part::Text(text) => append_quoted(text, out),
        Part::List(rest) => {
            append_byte(b'[', out)?;
            lists.push(Open {
                rest,
                follows: false,
            })?;
            Ok(())
        }
    }
}

/// Appends a value; where memory ends, a part of it.
fn append_value(pool: &Pool, id: ValueId, out: &mut Vec<u8>) -> Result<(), NoMemory>
    requires { id < length pool.now }
    ensures ok { OnOk result (out.new.items ≡ out.old.items ++ text_of (value_at pool.now id)) }
    ensures extended { IsExtended out.old.items out.new.items }
{
    let mut lists = Vec::new(*out.allocator());
    append_start(pool, id, &mut lists, out)?;
    while let Some(list) = lists.pop() {
        let Some((first, rest)) = list.rest.split_first() else {
            append_byte(b']', out)?;
            continue;
        };
        append_comma(list.follows, out)?;
        lists.push(Open {
            rest,
            follows: true,
        })?;
        append_start(pool, *first, &mut lists, out)?;
    }
    Ok(())
}

/// Appends the text of a value, without recursion.
pub fn append_text(pool: &Pool, id: ValueId, out: &mut Vec<u8>) -> Result<(), NoMemory>
    requires { id < length pool.now }
    ensures ok { OnOk result (out.new.items ≡ out.old.items ++ text_of (value_at pool.now id)) }
    ensures err { OnErr result (out.new.items ≡ out.old.items) }
{
    let before = out.len();
    let appended = append_value(pool, id, out);
    if appended.is_err() {
        out.truncate(before);
    }
    appended
}
