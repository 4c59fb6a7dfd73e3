// The hints about a grammar's text, written.
ghost use Rattle.std.specs.Prelude.{◌≡◌, ◌<◌, ◌≤◌, ◌++◌, [], length, IfOk, OnOk, string_bytes, chars, count_by, flat_map};
ghost use Rattle.dsl_statement.specs.Statements.{statements_of};
ghost use Rattle.slif_lint.specs.Described.{IsDescriptionOf};
ghost use Rattle.lint_hints.specs.Hints.{hint_of};
ghost use Rattle.slif_lint.specs.Sentences.{line_of, column_of, place_text, line_text};
ghost use Rattle.slif_lint.specs.Meant.{line_start, line_end, is_meant};
ghost use Rattle.slif_lint.specs.Told as told;
ghost use Rattle.slif_lint.specs.Told.{AreListed, told_line, AreTold, IsWritten};

use crate::sentences::{push_sentence, put, put_number};
use crate::stop::Stop;
use dsl_reader::{StatementRefusal, parse};
use dsl_statement::{Description, Statement};
use dsl_tokens::{TokenRefusal, tokens};
use lint_hints::{Hint, has_piece, hints_of};
use slif_base::{Chars, Sink, TextRefusal, chars_of, write_all};
use std::alloc::{AllocError, Global};

/// The characters of a grammar's text.
fn characters(alloc: Global, grammar: &[u8]) -> Result<Chars, Stop>
    ensures { IfOk result (λ cs. cs ≡ chars grammar.now) }
{
    match chars_of(alloc, grammar) {
        Ok(chars) => Ok(chars),
        Err(TextRefusal::NotUtf8 { at }) => Err(Stop::NotUtf8 { at }),
        Err(TextRefusal::NoMemory) => Err(Stop::NoMemory),
    }
}

/// The line and the column of a character.
fn place_of(chars: &Chars, at: usize) -> (u32, u32)
    ensures line { result.0 ≡ line_of chars.now at }
    ensures column { result.1 ≡ column_of chars.now at }
{
    if at <= chars.len() && at < 4_294_967_295 {
        chars.line_column(at)
    } else {
        (1, 1)
    }
}

/// The statements of a grammar's text.
fn described(alloc: Global, chars: &Chars) -> Result<Description, Stop>
    ensures { IfOk result (λ d. IsDescriptionOf d chars.now) }
{
    let tokens = match tokens(alloc, chars) {
        Ok(tokens) => tokens,
        Err(TokenRefusal::BadToken { at }) => {
            let (line, column) = place_of(chars, at);
            return Err(Stop::BadToken { line, column });
        }
        Err(TokenRefusal::NoMemory) => return Err(Stop::NoMemory),
    };
    match parse(alloc, chars, &tokens) {
        Ok(description) => Ok(description),
        Err(StatementRefusal::BadStatement { at }) => {
            let (line, column) = place_of(chars, at);
            Err(Stop::BadStatement { line, column })
        }
        Err(StatementRefusal::NoMemory) => Err(Stop::NoMemory),
    }
}

/// Where the line ends in which a character stands.
fn line_end(chars: &Chars, at: usize) -> usize
    requires { at ≤ length chars.now }
    ensures end { result ≡ line_end chars.now at }
    ensures order { at ≤ result }
    ensures within { result ≤ length chars.now }
{
    for i in at..chars.len() {
        if chars.at(i) == '\n' {
            return i;
        }
    }
    chars.len()
}

/// Where the line begins in which a character stands.
fn line_start(chars: &Chars, at: usize) -> usize
    requires within { at ≤ length chars.now }
    requires small { at < 4294967295 }
    ensures start { result ≡ line_start chars.now at }
    ensures order { result ≤ at }
{
    let (_, column) = chars.line_column(at);
    at + 1 - column as usize
}

/// Whether the comment of its line says that what stands there is meant.
fn is_meant(chars: &Chars, at: usize) -> bool
    ensures { result ≡ is_meant chars.now at }
{
    if at <= chars.len() && at < 4_294_967_295 {
        let start = line_start(chars, at);
        let end = line_end(chars, at);
        has_piece(chars.text(start, end), "# meant")
    } else {
        false
    }
}

fn is_told(chars: &Chars, hint: &Hint<'_>) -> bool
    ensures { result ≡ told.is_told chars.now hint.now }
{
    !is_meant(chars, hint.at)
}

fn push_place(chars: &Chars, at: usize, out: &mut String) -> Result<(), AllocError>
    ensures { OnOk result (string_bytes out.new ≡ string_bytes out.old ++ place_text chars.now at) }
{
    let (line, column) = place_of(chars, at);
    put("line ", out)?;
    put_number(line, out)?;
    put(" column ", out)?;
    put_number(column, out)
}

/// Appends the line of a hint.
fn push_line(chars: &Chars, hint: &Hint<'_>, out: &mut String) -> Result<(), AllocError>
    ensures { OnOk result (string_bytes out.new ≡ string_bytes out.old ++ line_text chars.now
        (hint_of hint.now)) }
{
    push_place(chars, hint.at, out)?;
    put(": ", out)?;
    push_sentence(hint.fault, out)?;
    put("\n", out)
}

/// Appends the line of a hint that is told.
fn push_told(chars: &Chars, hint: &Hint<'_>, out: &mut String) -> Result<(), AllocError>
    ensures { OnOk result (string_bytes out.new ≡ string_bytes out.old ++ told_line chars.now
        hint.now) }
{
    if is_told(chars, hint) {
        push_line(chars, hint, out)
    } else {
        Ok(())
    }
}

/// Appends a line for each hint that is told.
fn push_lines(chars: &Chars, hints: &[Hint<'_>], out: &mut String) -> Result<(), AllocError>
    ensures { OnOk result (string_bytes out.new ≡ string_bytes out.old ++ flat_map
        (told_line chars.now) hints.now) }
{
    for hint in hints {
        push_told(chars, hint, out)?;
    }
    Ok(())
}

/// How many hints are told.
fn count_of(chars: &Chars, hints: &[Hint<'_>]) -> usize
    ensures { result ≡ count_by (told.is_told chars.now) hints.now }
{
    let mut count = 0usize;
    for hint in hints {
        if is_told(chars, hint) {
            count += 1;
        }
    }
    count
}

/// All hints, in the order of their places.
fn listed<'d>(alloc: Global, statements: &'d [Statement]) -> Result<Vec<Hint<'d>>, AllocError>
    ensures { IfOk result (λ all. AreListed (statements_of statements.now) all.items) }
{
    let mut hints = hints_of(alloc, statements)?;
    hints.sort_by_key(|hint| hint.at)?;
    Ok(hints)
}

/// Appends the hints, each a line, and gives how many there are.
fn push_hints(
    alloc: Global,
    chars: &Chars,
    statements: &[Statement],
    out: &mut String,
) -> Result<usize, AllocError>
    requires { string_bytes out.old ≡ [] }
    ensures { IfOk result (λ count. AreTold (statements_of statements.now) chars.now count
        (string_bytes out.new)) }
{
    let hints = listed(alloc, statements)?;
    let slice = hints.as_slice();
    push_lines(chars, slice, out)?;
    Ok(count_of(chars, slice))
}

/// Writes the hints about a grammar, and gives how many there are.
pub(crate) fn tell<K: Sink>(alloc: Global, grammar: &[u8], sink: &mut K) -> Result<usize, Stop>
    ensures { IfOk result (λ count. IsWritten grammar.now count (K.contents sink.old)
        (K.contents sink.new)) }
{
    let chars = characters(alloc, grammar)?;
    let description = described(alloc, &chars)?;
    let mut out = String::new(alloc);
    let count = push_hints(alloc, &chars, &description.statements, &mut out)?;
    write_all(sink, out.as_bytes())?;
    Ok(count)
}
