// What is told of characters that are read to their end.
ghost use Rattle.std.specs.Prelude.{◌≤◌, ◌<◌, length, IfErr, OnOk};
ghost use Rattle.grammar_model.specs.declared.limits.TheConstants.{LONGEST_INPUT};
ghost use Rattle.command_line.specs.Jobs.{telling_of};
ghost use Rattle.run_model.specs.Outside.{stream};
ghost use Rattle.valuator.specs.Told.{states};
ghost use Rattle.value_lines.specs.Writing.{AreBothTellers};
ghost use Rattle.scanless.specs.declared.reading.Ending.TheVariants.{End};
ghost use Rattle.tellings.specs.Stops.{Does, WriteStops};
ghost use Rattle.text_reading.specs.Parts.{IsSomeReading, ForGiven};
ghost use Rattle.tellings.specs.Telling.{TellsReading, GoesOnWithin};

use crate::expecting::write_expected;
use crate::glading::write_glades;
use crate::paging::write_more;
use crate::reporting::write_report;
use crate::stop::Stop;
use crate::values::write_values;
use command_line::Telling;
use scanless::{Prepared, Reading};
use slif_base::{Chars, Sink, Steps};
use std::alloc::Global;
use std::sync::ledger::Ledger;
use valuator::Teller;

/// Writes what is told of characters that are read to their end.
pub fn tell_reading<'a, O: Sink, L: Ledger>(
    alloc: Global,
    prepared: &Prepared,
    what: Telling<'_>,
    chars: &Chars,
    reading: &Reading<'_>,
    out: &mut O,
    tellers: Vec<Box<dyn Teller>>,
    steps: &mut Steps<L>,
) -> Result<(), Stop<'a>>
    requires few { length chars.now ≤ LONGEST_INPUT }
    requires read { IsSomeReading prepared.now chars.now reading.now.recce reading.now.spans.items
        End }
    requires tellers { AreBothTellers (states tellers.items shows held) }
    ensures done { ForGiven prepared.now chars.now reading.now.recce
        reading.now.spans.items End
        (λ given. OnOk result (Does (TellsReading (telling_of what.entry) prepared.now given chars.now)
        (O.contents out.old) (O.contents out.new))) }
    ensures stops { ForGiven prepared.now chars.now reading.now.recce
        reading.now.spans.items End
        (λ given. IfErr result (WriteStops
        (TellsReading (telling_of what.entry) prepared.now given chars.now)
        (stream O.contents O.fault_count out.old) (stream O.contents O.fault_count out.new))) }
    ensures counted { ForGiven prepared.now chars.now reading.now.recce
        reading.now.spans.items End
        (λ given. OnOk result (GoesOnWithin (telling_of what.entry) prepared.now given chars.now
        reading.now.recce steps.old steps.new)) }
    ensures out_later { O.fault_count out.old ≤ O.fault_count out.new }
{
    match what {
        Telling::Values(asked) => write_values(
            alloc, prepared, asked, chars, reading, out, tellers, steps,
        ),
        Telling::More(asked) => write_more(
            alloc, prepared, asked, chars, reading, out, tellers, steps,
        ),
        Telling::Expected => write_expected(alloc, prepared, chars, reading, out),
        Telling::Report { at } => write_report(alloc, prepared, at, chars, reading, out),
        Telling::Glades => write_glades(alloc, prepared, chars, reading, out, steps),
    }
}
