// What job `run` writes.
ghost use Rattle.std.specs.Prelude.{◌≡◌, ℕ, ◌+◌, ◌≤◌, length, map, false, IfErr, OnOk};
ghost use Rattle.grammar_core.specs.Steps.{step_of};
ghost use Rattle.forest_parts.specs.Given.{items_in};
ghost use Rattle.bocage.specs.Given.{AreGivenFor};
ghost use Rattle.std.specs.List.{concat};
ghost use Rattle.std.specs.Io.KnownBytes.{Appends};
ghost use Rattle.grammar_model.specs.declared.limits.TheConstants.{LONGEST_INPUT};
ghost use Rattle.run_model.specs.Outside.{stream};
ghost use Rattle.words_model.specs.Words.Telling.{Values};
ghost use Rattle.run_model.specs.Numbers.{Numbers};
ghost use Rattle.run_model.specs.Telling.{stats_lines};
ghost use Rattle.command_line.specs.Jobs.{asked_of};
ghost use Rattle.valuator.specs.Told.{states};
ghost use Rattle.value_lines.specs.Writing.{AreBothTellers};
ghost use Rattle.scanless.specs.declared.reading.Ending.TheVariants.{End};
ghost use Rattle.text_reading.specs.Parts.{IsSomeReading, ForGiven, HasOnly};
ghost use Rattle.tellings.specs.Stops.{Does, WriteStops, LinesStop};
ghost use Rattle.tellings.specs.Telling.{TellsReading, GoesOnWithin, AreNumbersOf};

use crate::stop::Stop;
use crate::writing::write_lines;
use bocage::Forest;
use bumpalo::Bump;
use command_line::ValuesAsked;
use forest_parts::Given;
use grammar_core::TreeStep;
use scanless::{Prepared, Reading};
use slif_base::{Chars, Sink, Steps};
use std::alloc::Global;
use std::sync::ledger::Ledger;
use text_reading::{forest_after, only_of};
use valuator::Teller;
use value_lines::{stats_line, write_derivation, write_derivations};

/// Writes the values that are asked for, one a line, and after them the line of the numbers, where it is asked for. Where the first
/// derivation is all there is to tell, no forest is made.
pub fn write_values<'a, O: Sink, L: Ledger>(
    alloc: Global,
    prepared: &Prepared,
    asked: ValuesAsked,
    chars: &Chars,
    reading: &Reading<'_>,
    out: &mut O,
    tellers: Vec<Box<dyn Teller>>,
    steps: &mut Steps<L>,
) -> Result<(), Stop<'a>>
    requires few { length chars.now ≤ LONGEST_INPUT }
    requires read { IsSomeReading prepared.now chars.now reading.now.recce reading.now.spans.items
        End }
    requires tellers { AreBothTellers (states tellers.items shows held) }
    ensures done { ForGiven prepared.now chars.now reading.now.recce
        reading.now.spans.items End
        (λ given. OnOk result (Does (TellsReading (Values (asked_of asked)) prepared.now given chars.now)
        (O.contents out.old) (O.contents out.new))) }
    ensures stops { ForGiven prepared.now chars.now reading.now.recce
        reading.now.spans.items End
        (λ given. IfErr result (WriteStops (TellsReading (Values (asked_of asked)) prepared.now given chars.now)
        (stream O.contents O.fault_count out.old) (stream O.contents O.fault_count out.new))) }
    ensures counted { ForGiven prepared.now chars.now reading.now.recce
        reading.now.spans.items End
        (λ given. OnOk result (GoesOnWithin (Values (asked_of asked)) prepared.now given chars.now
        reading.now.recce steps.old steps.new)) }
    ensures out_later { O.fault_count out.old ≤ O.fault_count out.new }
{
    let _place = reading.recce.place();
    let mut before = Given::new(alloc);
    if asked.stats {
        return write_listed(
            alloc, prepared, asked, chars, reading, &before, out, tellers, steps,
        );
    }
    let only = only_of(
        alloc,
        prepared,
        asked.ranking,
        asked.first,
        chars,
        reading,
        &mut before,
        steps,
    )?;
    match only {
        Some(list) => write_only(alloc, prepared, asked, chars, reading, &list, out, tellers),
        None => write_listed(
            alloc, prepared, asked, chars, reading, &before, out, tellers, steps,
        ),
    }
}

// Writes the line of the first derivation, where it is all there is to tell.
fn write_only<'a, O: Sink>(
    alloc: Global,
    prepared: &Prepared,
    asked: ValuesAsked,
    chars: &Chars,
    reading: &Reading<'_>,
    list: &[TreeStep],
    out: &mut O,
    tellers: Vec<Box<dyn Teller>>,
) -> Result<(), Stop<'a>>
    requires values { asked.stats ≡ false }
    requires read { IsSomeReading prepared.now chars.now reading.now.recce reading.now.spans.items
        End }
    requires only { ForGiven prepared.now chars.now reading.now.recce reading.now.spans.items End
        (λ given. HasOnly prepared.now given asked.ranking asked.first chars.now
        reading.now.spans.items reading.now.recce (map step_of list.now)) }
    requires tellers { AreBothTellers (states tellers.items shows held) }
    ensures done { ForGiven prepared.now chars.now reading.now.recce
        reading.now.spans.items End
        (λ given. OnOk result (Does (TellsReading (Values (asked_of asked)) prepared.now given chars.now)
        (O.contents out.old) (O.contents out.new))) }
    ensures stops { ForGiven prepared.now chars.now reading.now.recce
        reading.now.spans.items End
        (λ given. IfErr result (WriteStops (TellsReading (Values (asked_of asked)) prepared.now given chars.now)
        (stream O.contents O.fault_count out.old) (stream O.contents O.fault_count out.new))) }
    ensures out_later { O.fault_count out.old ≤ O.fault_count out.new }
{
    prepared.known();
    write_derivation(
        alloc,
        prepared,
        chars,
        &reading.spans,
        list,
        asked.show,
        tellers,
        out,
    )?;
    Ok(())
}

// Writes the values by a forest, where some hidden items were brought back before, and the line of the numbers.
fn write_listed<'a, O: Sink, L: Ledger>(
    alloc: Global,
    prepared: &Prepared,
    asked: ValuesAsked,
    chars: &Chars,
    reading: &Reading<'_>,
    before: &Given,
    out: &mut O,
    tellers: Vec<Box<dyn Teller>>,
    steps: &mut Steps<L>,
) -> Result<(), Stop<'a>>
    requires few { length chars.now ≤ LONGEST_INPUT }
    requires read { IsSomeReading prepared.now chars.now reading.now.recce reading.now.spans.items
        End }
    requires before { AreGivenFor prepared.now.g1 asked.ranking reading.now.recce before.now }
    requires tellers { AreBothTellers (states tellers.items shows held) }
    ensures done { ForGiven prepared.now chars.now reading.now.recce
        reading.now.spans.items End
        (λ given. OnOk result (Does (TellsReading (Values (asked_of asked)) prepared.now given chars.now)
        (O.contents out.old) (O.contents out.new))) }
    ensures stops { ForGiven prepared.now chars.now reading.now.recce
        reading.now.spans.items End
        (λ given. IfErr result (WriteStops (TellsReading (Values (asked_of asked)) prepared.now given chars.now)
        (stream O.contents O.fault_count out.old) (stream O.contents O.fault_count out.new))) }
    ensures counted { ForGiven prepared.now chars.now reading.now.recce
        reading.now.spans.items End
        (λ given. OnOk result ((start : ℕ) → steps.old ≡ start + items_in before.now →
        GoesOnWithin (Values (asked_of asked)) prepared.now given chars.now reading.now.recce start steps.new)) }
    ensures out_later { O.fault_count out.old ≤ O.fault_count out.new }
{
    let _place = reading.recce.place();
    prepared.known();
    let arena = Bump::new(alloc);
    let forest = forest_after(
        alloc,
        &arena,
        prepared,
        asked.ranking,
        chars,
        reading,
        before,
        steps,
    )?;
    forest.known();
    write_derivations(
        alloc,
        prepared,
        chars,
        &reading.spans,
        &forest,
        asked.show,
        asked.first,
        tellers,
        out,
        steps,
    )?;
    write_stats(alloc, asked.stats, &forest, out)
}

// Writes the line of the numbers, where it is asked for.
fn write_stats<'a, O: Sink>(
    alloc: Global,
    asked: bool,
    forest: &Forest<'_>,
    out: &mut O,
) -> Result<(), Stop<'a>>
    ensures written { OnOk result ((n : Numbers) → AreNumbersOf forest.now n →
        Appends (O.contents out.old) (O.contents out.new) (concat (stats_lines asked n))) }
    ensures stops { IfErr result (λ stop. (n : Numbers) → AreNumbersOf forest.now n →
        LinesStop (stats_lines asked n) (stream O.contents O.fault_count out.old)
        (stream O.contents O.fault_count out.new) stop) }
    ensures out_later { O.fault_count out.old ≤ O.fault_count out.new }
{
    if !asked {
        return Ok(());
    }
    forest.known();
    let stats = forest.stats(alloc)?;
    let line = stats_line(alloc, &stats)?;
    write_lines(&[line], out)
}
