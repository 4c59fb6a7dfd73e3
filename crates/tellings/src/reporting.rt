// What job `progress` writes.
ghost use Rattle.std.specs.Prelude.{◌≡◌, ◌≤◌, ◌<◌, All, map, length, IfOk, IfErr, OnOk};
ghost use Rattle.run_model.specs.Telling.{report_line, no_set_text};
ghost use Rattle.run_model.specs.Outside.{stream};
ghost use Rattle.words_model.specs.Words.Telling.{Report};
ghost use Rattle.scanless.specs.declared.reading.Ending.TheVariants.{End};
ghost use Rattle.text_reading.specs.Parts.{IsSomeReading, ForGiven};
ghost use Rattle.tellings.specs.Stops.{Does, WriteStops};
ghost use Rattle.tellings.specs.Telling.{TellsReading};

use crate::stop::{Refusal, Stop};
use crate::writing::write_lines;
use grammar_core::Written;
use progress::{ProgressRefusal, ReportLine, report};
use scanless::{Prepared, Reading};
use slif_base::{Chars, Sink};
use std::alloc::{AllocError, Global};

/// Writes the progress report at a place, one item a line.
pub fn write_report<'a, O: Sink>(
    alloc: Global,
    prepared: &Prepared,
    at: u32,
    chars: &Chars,
    reading: &Reading<'_>,
    out: &mut O,
) -> Result<(), Stop<'a>>
    requires { IsSomeReading prepared.now chars.now reading.now.recce reading.now.spans.items End }
    ensures done { ForGiven prepared.now chars.now reading.now.recce
        reading.now.spans.items End
        (λ given. OnOk result (Does (TellsReading (Report at) prepared.now given chars.now)
        (O.contents out.old) (O.contents out.new))) }
    ensures stops { ForGiven prepared.now chars.now reading.now.recce
        reading.now.spans.items End
        (λ given. IfErr result (WriteStops (TellsReading (Report at) prepared.now given chars.now)
        (stream O.contents O.fault_count out.old) (stream O.contents O.fault_count out.new))) }
    ensures out_later { O.fault_count out.old ≤ O.fault_count out.new }
{
    prepared.known();
    let last = reading.recce.place();
    // The characters stand in the contract alone.
    let _ = chars;
    match report(alloc, prepared.written(), &reading.recce, at) {
        Ok(items) => {
            let lines = report_lines(alloc, prepared.written(), at, &items)?;
            write_lines(&lines, out)
        }
        Err(ProgressRefusal::NoSuchSet) => {
            let text = no_set(alloc, at, last)?;
            Err(Stop::Refused(Refusal::Input { text }))
        }
        Err(ProgressRefusal::NoMemory) => Err(Stop::NoMemory),
    }
}

fn no_set(alloc: Global, at: u32, last: u32) -> Result<Vec<u8>, AllocError>
    ensures { IfOk result (λ text. text.items ≡ no_set_text at last) }
{
    let text = format!(in alloc; "no set {at}; the last is {last}")?;
    Ok(text.into_bytes())
}

// The items of a report, one a line.
fn report_lines(
    alloc: Global,
    w: &Written,
    at: u32,
    items: &[ReportLine],
) -> Result<Vec<Vec<u8>>, AllocError>
    requires { All (λ l. l.rule < length w.now.rules) items.now }
    ensures { IfOk result (λ lines. map (λ l. l.items) lines.items ≡ map (report_line w.now at) items.now) }
{
    let mut lines = Vec::new(alloc);
    for item in items {
        lines.push(line_of(alloc, w, at, item)?)?;
    }
    Ok(lines)
}

fn line_of(alloc: Global, w: &Written, at: u32, item: &ReportLine) -> Result<Vec<u8>, AllocError>
    requires { item.now.rule < length w.now.rules }
    ensures { IfOk result (λ line. line.items ≡ report_line w.now at item.now) }
{
    let ReportLine { rule, dot, origin } = *item;
    let name = w.name(w.lhs(rule as usize));
    let line = format!(in alloc; "{rule}:{dot} @{origin}-{at} {name}\n")?;
    Ok(line.into_bytes())
}
