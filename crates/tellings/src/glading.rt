// What job `glades` writes.
ghost use Rattle.std.specs.Prelude.{◌≤◌, ◌<◌, ◌∷◌, [], All, length, map, IfErr, OnOk};
ghost use Rattle.std.specs.List.{concat};
ghost use Rattle.std.specs.Io.KnownBytes.{Appends};
ghost use Rattle.grammar_model.specs.declared.limits.TheConstants.{LONGEST_INPUT};
ghost use Rattle.run_model.specs.Outside.{stream};
ghost use Rattle.run_model.specs.Glades.{glade_line};
ghost use Rattle.words_model.specs.Words.Telling.{Glades};
ghost use Rattle.scanless.specs.declared.reading.Ending.TheVariants.{End};
ghost use Rattle.text_reading.specs.Parts.{IsSomeReading, ForGiven};
ghost use Rattle.tellings.specs.Stops.{Does, WriteStops, LinesStop};
ghost use Rattle.tellings.specs.Telling.{TellsReading, GoesOnWithin};

use crate::glade_lines::append_glade;
use crate::stop::Stop;
use bumpalo::Bump;
use glades::{Glade, report_glades};
use grammar_core::Written;
use grammar_model::Ranking;
use scanless::{Prepared, Reading};
use slif_base::{Chars, Sink, Steps, write_all};
use std::alloc::Global;
use std::sync::ledger::Ledger;
use text_reading::forest_of;

/// Writes where the derivations differ, one glade a line.
pub fn write_glades<'a, O: Sink, L: Ledger>(
    alloc: Global,
    prepared: &Prepared,
    chars: &Chars,
    reading: &Reading<'_>,
    out: &mut O,
    steps: &mut Steps<L>,
) -> Result<(), Stop<'a>>
    requires few { length chars.now ≤ LONGEST_INPUT }
    requires read { IsSomeReading prepared.now chars.now reading.now.recce reading.now.spans.items
        End }
    ensures done { ForGiven prepared.now chars.now reading.now.recce
        reading.now.spans.items End
        (λ given. OnOk result (Does (TellsReading Glades prepared.now given chars.now)
        (O.contents out.old) (O.contents out.new))) }
    ensures stops { ForGiven prepared.now chars.now reading.now.recce
        reading.now.spans.items End
        (λ given. IfErr result (WriteStops (TellsReading Glades prepared.now given chars.now)
        (stream O.contents O.fault_count out.old) (stream O.contents O.fault_count out.new))) }
    ensures counted { ForGiven prepared.now chars.now reading.now.recce
        reading.now.spans.items End
        (λ given. OnOk result (GoesOnWithin Glades prepared.now given chars.now
        reading.now.recce steps.old steps.new)) }
    ensures out_later { O.fault_count out.old ≤ O.fault_count out.new }
{
    prepared.known();
    let w = prepared.written();
    let _place = reading.recce.place();
    let arena = Bump::new(alloc);
    let forest = forest_of(
        alloc,
        &arena,
        prepared,
        Ranking::Rule,
        chars,
        reading,
        steps,
    )?;
    forest.known();
    let glades = report_glades(alloc, &forest, w, steps)?;
    write_lines_of(alloc, w, &glades, out)
}

// Writes the lines of glades, one piece each.
fn write_lines_of<'a, O: Sink>(
    alloc: Global,
    w: &Written,
    glades: &[Glade],
    out: &mut O,
) -> Result<(), Stop<'a>>
    requires { All (λ g. g.slot.symbol < length w.now.names) glades.now }
    ensures written { OnOk result (Appends (O.contents out.old) (O.contents out.new) (concat (map (glade_line w.now) glades.now))) }
    ensures stops { IfErr result (LinesStop (map (glade_line w.now) glades.now)
        (stream O.contents O.fault_count out.old) (stream O.contents O.fault_count out.new)) }
    ensures out_later { O.fault_count out.old ≤ O.fault_count out.new }
{
    let mut line = Vec::new(alloc);
    for glade in glades {
        write_line(w, glade, &mut line, out)?;
    }
    Ok(())
}

// Writes the line of a glade. It stands in `line`, in place of what was there.
fn write_line<'a, O: Sink>(
    w: &Written,
    glade: &Glade,
    line: &mut Vec<u8>,
    out: &mut O,
) -> Result<(), Stop<'a>>
    requires { glade.now.slot.symbol < length w.now.names }
    ensures written { OnOk result (Appends (O.contents out.old) (O.contents out.new) (glade_line w.now glade.now)) }
    ensures stops { IfErr result (LinesStop (glade_line w.now glade.now ∷ [])
        (stream O.contents O.fault_count out.old) (stream O.contents O.fault_count out.new)) }
    ensures out_later { O.fault_count out.old ≤ O.fault_count out.new }
{
    line.clear();
    append_glade(w, glade, line)?;
    let Ok(()) = write_all(out, line) else {
        return Err(Stop::WriteFault);
    };
    Ok(())
}
