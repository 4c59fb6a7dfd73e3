// What is told of an input, from its file on.
ghost use Rattle.std.specs.Prelude.{◌≡◌, ◌≢◌, ◌≤◌, ◌⊎◌, ◌<◌, ◌↔◌, length, is_some, IsTrue, IfErr, OnOk};
ghost use Rattle.outside_model.specs.Causes.{Rose};
ghost use Rattle.outside_model.specs.Told.{SameFiles, AsksAmong};
ghost use Rattle.words_model.specs.Words.InputFrom.{Nowhere, StandardInput, FileNamed};
ghost use Rattle.run_model.specs.Inputs.{input_limit};
ghost use Rattle.run_model.specs.Outcome.{IsInputOutcome};
ghost use Rattle.run_model.specs.Within.{InputWithin};
ghost use Rattle.command_line.specs.Jobs.{telling_of, input_of};
ghost use Rattle.run_model.specs.Outside.{stream};
ghost use Rattle.valuator.specs.Told.{states};
ghost use Rattle.value_lines.specs.Writing.{AreBothTellers};
ghost use Rattle.tellings.specs.Stops.{Does, StopsAt, WriteStops};
ghost use Rattle.slif_cli.specs.Stops.{InputHolds, ToldWithin, MayRead, names_from};

use crate::giving::{limit_with, read_with};
use crate::hands::Hands;
use crate::inputs::read_bytes;
use command_line::{InputFrom, Telling};
use grammar_core::SymbolId;
use scanless::Prepared;
use slif_base::{Files, Sink, Source, Steps};
use std::alloc::Global;
use std::sync::ledger::Ledger;
use tellings::{Stop, tell_reading};
use text_reading::input_chars;

/// Reads the input and writes what is told of it.
pub fn tell_input<'a, F: Files, I: Source, O: Sink, L: Ledger>(
    alloc: Global,
    prepared: &Prepared,
    lexemes: &[SymbolId],
    what: Telling<'_>,
    from: InputFrom<'a>,
    files: &mut F,
    input: &mut I,
    out: &mut O,
    hands: Hands,
    steps: &mut Steps<L>,
) -> Result<(), Stop<'a>>
    requires names { length lexemes.now ≤ 8 }
    requires both { IsTrue (is_some hands.supplier) ↔ (0 < length lexemes.now) }
    requires somewhere { input_of from ≢ Nowhere }
    requires tellers { AreBothTellers (states hands.tellers.items shows held) }
    ensures done { OnOk result (Does
        (MayRead (IsInputOutcome (telling_of what.entry) prepared.now lexemes.now)
        (input_of from.entry) (F.told files.old) (I.left input.old))
        (O.contents out.old) (O.contents out.new)) }
    ensures stops { IfErr result (StopsAt
        (MayRead (IsInputOutcome (telling_of what.entry) prepared.now lexemes.now)
        (input_of from.entry) (F.told files.old) (I.left input.old))
        (λ asked. Rose (F.fault_count files.old) (F.fault_count files.new) × (input_of from.entry ≡ FileNamed asked))
        (Rose (F.fault_count files.old) (F.fault_count files.new) ⊎ Rose (I.fault_count input.old) (I.fault_count input.new))
        (stream O.contents O.fault_count out.old) (stream O.contents O.fault_count out.new)) }
    ensures counted { OnOk result (InputHolds (input_of from.entry) (F.told files.old) (I.left input.old)
        (ToldWithin (telling_of what.entry) prepared.now lexemes.now
        (O.contents out.old) (O.contents out.new) steps.old steps.new)) }
    ensures later { F.fault_count files.old ≤ F.fault_count files.new }
    ensures input_later { I.fault_count input.old ≤ I.fault_count input.new }
    ensures out_later { O.fault_count out.old ≤ O.fault_count out.new }
    ensures held { SameFiles (F.told files.old) (F.told files.new) }
    ensures asks { AsksAmong (F.asked files.old) (F.asked files.new) (names_from (input_of from.entry)) }
    ensures input { (input.new ≡ input.old) ⊎ (input_of from.entry ≡ StandardInput) }
{
    let limit = limit_with(lexemes);
    let bytes = read_bytes(alloc, from, limit, files, input)?;
    tell_bytes(alloc, prepared, lexemes, what, bytes, out, hands, steps)
}

// Writes what is told of the bytes of an input.
fn tell_bytes<'a, O: Sink, L: Ledger>(
    alloc: Global,
    prepared: &Prepared,
    lexemes: &[SymbolId],
    what: Telling<'_>,
    bytes: Vec<u8>,
    out: &mut O,
    hands: Hands,
    steps: &mut Steps<L>,
) -> Result<(), Stop<'a>>
    requires names { length lexemes.now ≤ 8 }
    requires both { IsTrue (is_some hands.supplier) ↔ (0 < length lexemes.now) }
    requires few { length bytes.items ≤ input_limit lexemes.now }
    requires tellers { AreBothTellers (states hands.tellers.items shows held) }
    ensures done { OnOk result (Does (IsInputOutcome (telling_of what.entry) prepared.now lexemes.now bytes.items) (O.contents out.old) (O.contents out.new)) }
    ensures stops { IfErr result (WriteStops (IsInputOutcome (telling_of what.entry) prepared.now lexemes.now bytes.items)
        (stream O.contents O.fault_count out.old) (stream O.contents O.fault_count out.new)) }
    ensures counted { OnOk result (InputWithin (telling_of what.entry) prepared.now lexemes.now bytes.items steps.old steps.new) }
    ensures out_later { O.fault_count out.old ≤ O.fault_count out.new }
{
    let chars = input_chars(alloc, bytes)?;
    let reading = read_with(alloc, prepared, &chars, lexemes, hands.supplier, steps)?;
    let told = tell_reading(
        alloc,
        prepared,
        what,
        &chars,
        &reading,
        out,
        hands.tellers,
        steps,
    );
    drop(reading);
    told
}
