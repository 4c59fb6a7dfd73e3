// What job `more` writes.
ghost use Rattle.std.specs.Prelude.{◌≡◌, ◌≤◌, ◌+◌, ◌*◌, ◌++◌, List, length, take, IfErr, OnOk};
ghost use Rattle.std.specs.List.{sum_by};
ghost use Rattle.std.specs.Io.KnownBytes.{Appends};
ghost use Rattle.grammar_model.specs.Trees.{Tree};
ghost use Rattle.grammar_model.specs.declared.limits.TheConstants.{LONGEST_INPUT};
ghost use Rattle.cursor_model.specs.Rest.{IsPlaceOf};
ghost use Rattle.recognizer_model.specs.Links.{choices};
ghost use Rattle.reading_model.specs.Reading.{Piece};
ghost use Rattle.forest_model.specs.Listing.{IsListing};
ghost use Rattle.run_model.specs.Listing.{first_of, beyond};
ghost use Rattle.run_model.specs.More.{last_steps};
ghost use Rattle.run_model.specs.Outside.{stream};
ghost use Rattle.words_model.specs.Words.Telling.{More};
ghost use Rattle.command_line.specs.Jobs.{more_of};
ghost use Rattle.valuator.specs.Told.{states};
ghost use Rattle.value_lines.specs.Lines.{IsForestOf};
ghost use Rattle.value_lines.specs.Paging.{PageHas, PageStops};
ghost use Rattle.value_lines.specs.Writing.{AreBothTellers};
ghost use Rattle.scanless.specs.declared.reading.Ending.TheVariants.{End};
ghost use Rattle.tellings.specs.Refusals.{IsPageStop};
ghost use Rattle.text_reading.specs.Parts.{IsSomeReading, ForGiven};
ghost use Rattle.tellings.specs.Stops.{Does, WriteStops};
ghost use Rattle.tellings.specs.Telling.{TellsReading, GoesOnWithin};

use crate::places::place_of;
use crate::stop::{Refusal, Stop};
use bocage::Forest;
use bumpalo::Bump;
use command_line::MoreAsked;
use grammar_core::{Span, TreeStep};
use grammar_model::Show;
use scanless::{Prepared, Reading};
use slif_base::{Chars, Sink, Steps};
use std::alloc::Global;
use std::sync::ledger::Ledger;
use text_reading::forest_of;
use tree_cursor::CursorRefusal;
use valuator::Teller;
use value_lines::{Page, PageRefusal, write_page};

/// Writes the values of the derivations after the place that is asked for, one a line, and a last line that tells where to go on.
pub fn write_more<'a, O: Sink, L: Ledger>(
    alloc: Global,
    prepared: &Prepared,
    asked: MoreAsked<'_>,
    chars: &Chars,
    reading: &Reading<'_>,
    out: &mut O,
    tellers: Vec<Box<dyn Teller>>,
    steps: &mut Steps<L>,
) -> Result<(), Stop<'a>>
    requires few { length chars.now ≤ LONGEST_INPUT }
    requires read { IsSomeReading prepared.now chars.now reading.now.recce reading.now.spans.items
        End }
    requires tellers { AreBothTellers (states tellers.items shows held) }
    ensures done { ForGiven prepared.now chars.now reading.now.recce
        reading.now.spans.items End
        (λ given. OnOk result (Does
        (TellsReading (More (more_of asked.entry)) prepared.now given chars.now)
        (O.contents out.old) (O.contents out.new))) }
    ensures stops { ForGiven prepared.now chars.now reading.now.recce
        reading.now.spans.items End
        (λ given. IfErr result (WriteStops
        (TellsReading (More (more_of asked.entry)) prepared.now given chars.now)
        (stream O.contents O.fault_count out.old) (stream O.contents O.fault_count out.new))) }
    ensures counted { ForGiven prepared.now chars.now reading.now.recce
        reading.now.spans.items End
        (λ given. OnOk result (GoesOnWithin (More (more_of asked.entry)) prepared.now given chars.now
        reading.now.recce steps.old steps.new)) }
    ensures out_later { O.fault_count out.old ≤ O.fault_count out.new }
{
    let _place = reading.recce.place();
    prepared.known();
    let arena = Bump::new(alloc);
    let forest = forest_of(
        alloc,
        &arena,
        prepared,
        asked.ranking,
        chars,
        reading,
        steps,
    )?;
    forest.known();
    match write_after(
        alloc,
        prepared,
        asked,
        chars,
        &reading.spans,
        &forest,
        tellers,
        out,
        steps,
    ) {
        Ok(()) => Ok(()),
        Err(refusal) => Err(stop_of(alloc, refusal)),
    }
}

// Writes the page after the place that is asked for.
fn write_after<O: Sink, L: Ledger>(
    alloc: Global,
    prepared: &Prepared,
    asked: MoreAsked<'_>,
    chars: &Chars,
    spans: &[Span],
    forest: &Forest<'_>,
    tellers: Vec<Box<dyn Teller>>,
    out: &mut O,
    steps: &mut Steps<L>,
) -> Result<(), PageRefusal>
    requires forest { (pieces : List Piece) ×
        IsForestOf prepared.now chars.now spans.now forest.now pieces }
    requires tellers { AreBothTellers (states tellers.items shows held) }
    ensures written { OnOk result (PageHas prepared.now asked.entry.show asked.entry.first
        asked.entry.after.now chars.now spans.now forest.now
        (λ text. Appends (O.contents out.old) (O.contents out.new) text)) }
    ensures stops { IfErr result (PageStops prepared.now asked.entry.show asked.entry.first
        asked.entry.after.now chars.now spans.now forest.now
        (stream O.contents O.fault_count out.old) (stream O.contents O.fault_count out.new)) }
    ensures counted { OnOk result ((trees given rest : List Tree) → IsListing forest.now trees →
        IsPlaceOf asked.entry.after.now trees given rest →
        steps.new ≤ steps.old + 7 * last_steps given
        + sum_by choices
        (first_of asked.entry.first rest ++ take 1 (beyond asked.entry.first rest))) }
    ensures later { O.fault_count out.old ≤ O.fault_count out.new }
{
    prepared.known();
    prepared.written().known();
    let to = match place_of(alloc, asked.after) {
        Ok(to) => to,
        Err(CursorRefusal::BadCursor) => return Err(PageRefusal::NoSuchPlace),
        Err(CursorRefusal::NoMemory) => return Err(PageRefusal::NoMemory),
    };
    let page = page_of(asked.show, asked.first, asked.after, to.as_deref());
    write_page(
        alloc, prepared, chars, spans, forest, page, tellers, out, steps,
    )
}

fn page_of<'p>(
    show: Show,
    first: Option<u32>,
    after: &'p str,
    to: Option<&'p [TreeStep]>,
) -> Page<'p>
    ensures { result ≡ record { show = show; first = first; after = after.entry; to = to.entry } }
{
    Page {
        show,
        first,
        after,
        to,
    }
}

// Why the work stops where a page was not all written.
fn stop_of<'a>(alloc: Global, refusal: PageRefusal) -> Stop<'a>
    ensures { IsPageStop refusal result }
{
    match refusal {
        PageRefusal::NoSuchPlace => {
            match Vec::from_slice(alloc, b"the cursor names no derivation") {
                Ok(text) => Stop::Refused(Refusal::Input { text }),
                Err(_) => Stop::NoMemory,
            }
        }
        PageRefusal::WriteFault => Stop::WriteFault,
        PageRefusal::NoMemory => Stop::NoMemory,
    }
}
