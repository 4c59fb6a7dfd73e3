// What job `expect` writes.
ghost use Rattle.std.specs.Prelude.{◌≡◌, ◌≤◌, ◌<◌, ◌++◌, ◌∷◌, [], All, length, map, IfOk, IfErr, OnOk};
ghost use Rattle.grammar_model.specs.Values.{name_of};
ghost use Rattle.run_model.specs.Outcome.{done};
ghost use Rattle.run_model.specs.Outside.{stream};
ghost use Rattle.words_model.specs.Words.Telling.{Expected};
ghost use Rattle.scanless.specs.declared.reading.Ending.TheVariants.{End};
ghost use Rattle.text_reading.specs.Parts.{IsSomeReading, ForGiven};
ghost use Rattle.tellings.specs.Stops.{Does, WriteStops};
ghost use Rattle.tellings.specs.Telling.{TellsReading};

use crate::stop::Stop;
use crate::writing::write_lines;
use grammar_core::{SymbolId, Written};
use scanless::{Prepared, Reading, expected_lexemes};
use slif_base::{Chars, Sink};
use std::alloc::{AllocError, Global};

/// Writes the names of the lexemes that could come next.
pub fn write_expected<'a, O: Sink>(
    alloc: Global,
    prepared: &Prepared,
    chars: &Chars,
    reading: &Reading<'_>,
    out: &mut O,
) -> Result<(), Stop<'a>>
    requires { IsSomeReading prepared.now chars.now reading.now.recce reading.now.spans.items End }
    ensures done { ForGiven prepared.now chars.now reading.now.recce
        reading.now.spans.items End
        (λ given. OnOk result (Does (TellsReading Expected prepared.now given chars.now)
        (O.contents out.old) (O.contents out.new))) }
    ensures stops { ForGiven prepared.now chars.now reading.now.recce
        reading.now.spans.items End
        (λ given. IfErr result (WriteStops (TellsReading Expected prepared.now given chars.now)
        (stream O.contents O.fault_count out.old) (stream O.contents O.fault_count out.new))) }
    ensures out_later { O.fault_count out.old ≤ O.fault_count out.new }
{
    let lines = expected_lines(alloc, prepared, chars, reading)?;
    write_lines(&lines, out)
}

// The names, one a line.
fn expected_lines(
    alloc: Global,
    prepared: &Prepared,
    chars: &Chars,
    reading: &Reading<'_>,
) -> Result<Vec<Vec<u8>>, AllocError>
    requires { IsSomeReading prepared.now chars.now reading.now.recce reading.now.spans.items End }
    ensures { ForGiven prepared.now chars.now reading.now.recce
        reading.now.spans.items End
        (λ given. IfOk result (λ lines. TellsReading Expected prepared.now given chars.now
        (done (map (λ l. l.items) lines.items)))) }
{
    // The characters stand in the contract alone.
    let _ = chars;
    prepared.known();
    let symbols = expected_lexemes(alloc, prepared, &reading.recce)?;
    name_lines(alloc, prepared.written(), &symbols)
}

// The names of symbols, one a line.
fn name_lines(alloc: Global, w: &Written, symbols: &[SymbolId]) -> Result<Vec<Vec<u8>>, AllocError>
    requires { All (λ s. s < length w.now.names) symbols.now }
    ensures { IfOk result (λ lines. map (λ l. l.items) lines.items ≡ map (λ s. name_of w.now s ++ 10 ∷ []) symbols.now) }
{
    let mut lines = Vec::new(alloc);
    for symbol in symbols {
        lines.push(name_line(alloc, w, *symbol)?)?;
    }
    Ok(lines)
}

fn name_line(alloc: Global, w: &Written, symbol: SymbolId) -> Result<Vec<u8>, AllocError>
    requires { symbol < length w.now.names }
    ensures { IfOk result (λ line. line.items ≡ name_of w.now symbol ++ 10 ∷ []) }
{
    let mut line = Vec::from_slice(alloc, w.name(symbol).as_bytes())?;
    line.push(b'\n')?;
    Ok(line)
}
