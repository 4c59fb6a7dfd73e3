// The input: its characters, read to their end.
ghost use Rattle.std.specs.Prelude.{◌≡◌, ◌≤◌, ◌<◌, ◌++◌, ℕ, List, [], All, IsUtf8, length, chars as chars_in, codes, IfOk, IfErr, OnOk};
ghost use Rattle.std.specs.List.{flat_map};
ghost use Rattle.grammar_model.specs.Values.{name_of};
ghost use Rattle.grammar_model.specs.declared.limits.TheConstants.{LONGEST_INPUT};
ghost use Rattle.language_model.specs.Building.{Built};
ghost use Rattle.earley_sets.specs.Counted.{TakesAtMost};
ghost use Rattle.run_model.specs.Inputs.{input_limit, longer_text, names_text, stop_text};
ghost use Rattle.scanless.specs.Reading.{IsReadingOf};
ghost use Rattle.scanless.specs.declared.reading.Ending.TheVariants.{End};
ghost use Rattle.text_reading.specs.Refusals.{TellsInput, IsInputRefusedAt};
ghost use Rattle.text_reading.specs.Parts.{IsBrokenText, IsStopText, IsSomeReading, ForGiven};

use crate::Refusal;
use crate::phrases::{not_utf8_text, phrase, place_in};
use grammar_core::{SymbolId, Written};
use grammar_model::LONGEST_INPUT;
use scanless::{Ending, Prepared, Reading, read_input};
use slif_base::{Chars, Steps, TextRefusal, chars_from};
use std::alloc::{AllocError, Global};
use std::sync::ledger::Ledger;

/// What is told of an input that is longer than so many bytes.
pub fn long_input_text(alloc: Global, limit: usize) -> Result<Vec<u8>, AllocError>
    ensures { IfOk result (λ text. text.items ≡ longer_text limit) }
{
    let text = format!(in alloc; "input is longer than {limit} bytes")?;
    Ok(text.into_bytes())
}

/// The refusal of an input that is longer than its limit.
pub fn input_too_long(alloc: Global, limit: usize) -> Refusal
    ensures { (given bytes : List ℕ) (b : Built) → limit ≡ input_limit given →
        limit < length bytes → TellsInput (IsInputRefusedAt b given bytes) result }
{
    match long_input_text(alloc, limit) {
        Ok(text) => Refusal::Input {
            text,
            place: None,
            expected: Vec::new(alloc),
        },
        Err(_) => Refusal::NoMemory,
    }
}

/// The characters of an input, whose bytes are moved into them.
pub fn input_chars(alloc: Global, bytes: Vec<u8>) -> Result<Chars, Refusal>
    ensures utf8 { OnOk result (IsUtf8 bytes.items) }
    ensures ok { IfOk result (λ chars. chars ≡ chars_in bytes.items) }
    ensures refused { IfErr result (TellsInput (IsBrokenText bytes.items)) }
{
    match chars_from(alloc, bytes) {
        Ok(chars) => Ok(chars),
        Err(TextRefusal::NotUtf8 { at }) => Err(Refusal::Input {
            text: not_utf8_text(alloc, "input is", at)?,
            place: None,
            expected: Vec::new(alloc),
        }),
        Err(TextRefusal::NoMemory) => Err(Refusal::NoMemory),
    }
}

/// Reads a text to its end.
pub fn read_text<'p, L: Ledger>(
    alloc: Global,
    prepared: &'p Prepared,
    chars: &Chars,
    steps: &mut Steps<L>,
) -> Result<Reading<'p>, Refusal>
    requires { length chars.now ≤ LONGEST_INPUT }
    ensures read { IfOk result (λ r. IsReadingOf prepared.now chars.now r.recce r.spans.items End) }
    ensures counted { IfOk result (λ r. TakesAtMost r.recce steps.old steps.new) }
    ensures refused { IfErr result (TellsInput (IsStopText prepared.now [] chars.now)) }
{
    let reading = read_input(alloc, prepared, chars, steps)?;
    whole(alloc, prepared, chars, reading)
}

/// A reading, where it has come to the end of the text, whatever lexemes were given; else the refusal that tells where it stopped.
pub fn whole<'p>(
    alloc: Global,
    prepared: &Prepared,
    chars: &Chars,
    reading: Reading<'p>,
) -> Result<Reading<'p>, Refusal>
    requires few { length chars.now ≤ LONGEST_INPUT }
    requires read { IsSomeReading prepared.now chars.now reading.recce reading.spans.items
        reading.ending }
    ensures same { IfOk result (λ r. r ≡ reading.entry) }
    ensures end { OnOk result (reading.entry.ending ≡ End) }
    ensures refused { IfErr result (λ refusal.
        ForGiven prepared.now chars.now reading.entry.recce reading.entry.spans.items
        reading.entry.ending
        (λ given. TellsInput (IsStopText prepared.now given chars.now) refusal)) }
{
    match ended(alloc, prepared, chars, &reading) {
        Ok(()) => Ok(reading),
        Err(refusal) => {
            drop(reading);
            Err(refusal)
        }
    }
}

// Whether a reading has come to the end.
fn ended(
    alloc: Global,
    prepared: &Prepared,
    chars: &Chars,
    reading: &Reading<'_>,
) -> Result<(), Refusal>
    requires few { length chars.now ≤ LONGEST_INPUT }
    requires read { IsSomeReading prepared.now chars.now reading.now.recce
        reading.now.spans.items reading.now.ending }
    ensures end { OnOk result (reading.now.ending ≡ End) }
    ensures refused { IfErr result (λ refusal.
        ForGiven prepared.now chars.now reading.now.recce reading.now.spans.items
        reading.now.ending
        (λ given. TellsInput (IsStopText prepared.now given chars.now) refusal)) }
{
    prepared.known();
    match &reading.ending {
        Ending::End => Ok(()),
        Ending::Stopped {
            at,
            found,
            expected,
        } => {
            let text = stopped_text(alloc, prepared.written(), chars, *at, found, expected)?;
            Err(Refusal::Input {
                text,
                place: Some(place_in(chars, *at)),
                expected: Vec::from_slice(alloc, expected)?,
            })
        }
    }
}

fn stopped_text(
    alloc: Global,
    w: &Written,
    chars: &Chars,
    at: usize,
    found: &[SymbolId],
    expected: &[SymbolId],
) -> Result<Vec<u8>, AllocError>
    requires few { length chars.now ≤ LONGEST_INPUT }
    requires found { All (λ s. s < length w.now.names) found.now }
    requires expected { All (λ s. s < length w.now.names) expected.now }
    ensures { IfOk result (λ text. text.items ≡
        stop_text w.now chars.now at found.now expected.now) }
{
    let mut text = phrase(alloc, b"input stopped", "", b"", chars, at)?;
    text.extend_from_slice(b"; found: ")?;
    append_names(w, found, &mut text)?;
    text.extend_from_slice(b"; expected: ")?;
    append_names(w, expected, &mut text)?;
    Ok(text)
}

/// Appends the names of symbols, parted by commas.
pub fn append_names(w: &Written, symbols: &[SymbolId], text: &mut Vec<u8>) -> Result<(), AllocError>
    requires { All (λ s. s < length w.now.names) symbols.now }
    ensures { OnOk result (text.new.items ≡ text.old.items ++ names_text w.now symbols.now) }
{
    if symbols.is_empty() {
        text.extend_from_slice(b"none")?;
        return Ok(());
    }
    append_name(w, symbols[0], text)?;
    append_others(w, &symbols[1..], text)
}

fn append_name(w: &Written, symbol: SymbolId, text: &mut Vec<u8>) -> Result<(), AllocError>
    requires { symbol < length w.now.names }
    ensures { OnOk result (text.new.items ≡ text.old.items ++ name_of w.now symbol) }
{
    text.extend_from_slice(w.name(symbol).as_bytes())?;
    Ok(())
}

fn append_next(w: &Written, symbol: SymbolId, text: &mut Vec<u8>) -> Result<(), AllocError>
    requires { symbol < length w.now.names }
    ensures { OnOk result (text.new.items ≡
        text.old.items ++ (codes ", " ++ name_of w.now symbol)) }
{
    text.extend_from_slice(b", ")?;
    append_name(w, symbol, text)
}

fn append_others(w: &Written, symbols: &[SymbolId], text: &mut Vec<u8>) -> Result<(), AllocError>
    requires { All (λ s. s < length w.now.names) symbols.now }
    ensures { OnOk result (text.new.items ≡
        text.old.items ++ flat_map (λ s. codes ", " ++ name_of w.now s) symbols.now) }
{
    for symbol in symbols {
        append_next(w, *symbol, text)?;
    }
    Ok(())
}
