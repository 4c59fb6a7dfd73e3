// Job `script`, which plays its input and has no grammar.
ghost use Rattle.std.specs.Prelude.{◌≡◌, ◌≢◌, ◌≤◌, ◌⊎◌, length, IfErr, OnOk};
ghost use Rattle.grammar_model.specs.declared.limits.TheConstants.{LONGEST_INPUT};
ghost use Rattle.outside_model.specs.Causes.{Rose};
ghost use Rattle.outside_model.specs.Told.{SameFiles, AsksAmong};
ghost use Rattle.words_model.specs.Words.InputFrom.{Nowhere, StandardInput, FileNamed};
ghost use Rattle.run_model.specs.Outcome.{IsScriptOutcome};
ghost use Rattle.run_model.specs.Outside.{stream};
ghost use Rattle.command_line.specs.Jobs.{input_of};
ghost use Rattle.tellings.specs.Stops.{Does, StopsAt, WriteStops};
ghost use Rattle.slif_cli.specs.Stops.{MayRead, names_from, script_stop};

use crate::inputs::read_bytes;
use command_line::InputFrom;
use grammar_model::LONGEST_INPUT;
use marpa_script::{ScriptRefusal, play_script};
use slif_base::{Files, Sink, Source, Steps};
use std::alloc::Global;
use std::sync::ledger::Ledger;
use tellings::Stop;
use text_reading::input_chars;

/// Reads the input and writes the answers to its lines.
#[inline(never)]
pub fn play_input<'a, F: Files, I: Source, O: Sink, L: Ledger>(
    alloc: Global,
    from: InputFrom<'a>,
    files: &mut F,
    input: &mut I,
    out: &mut O,
    steps: &mut Steps<L>,
) -> Result<(), Stop<'a>>
    requires { input_of from ≢ Nowhere }
    ensures done { OnOk result (Does (MayRead IsScriptOutcome (input_of from.entry) (F.told files.old) (I.left input.old))
        (O.contents out.old) (O.contents out.new)) }
    ensures stops { IfErr result (StopsAt (MayRead IsScriptOutcome (input_of from.entry) (F.told files.old) (I.left input.old))
        (λ asked. Rose (F.fault_count files.old) (F.fault_count files.new) × (input_of from.entry ≡ FileNamed asked))
        (Rose (F.fault_count files.old) (F.fault_count files.new) ⊎ Rose (I.fault_count input.old) (I.fault_count input.new))
        (stream O.contents O.fault_count out.old) (stream O.contents O.fault_count out.new)) }
    ensures held { SameFiles (F.told files.old) (F.told files.new) }
    ensures asks { AsksAmong (F.asked files.old) (F.asked files.new) (names_from (input_of from.entry)) }
    ensures input { (input.new ≡ input.old) ⊎ (input_of from.entry ≡ StandardInput) }
{
    let bytes = read_bytes(alloc, from, LONGEST_INPUT, files, input)?;
    play_bytes(alloc, bytes, out, steps)
}

// Writes the answers to the lines of a text, or tells why the bytes are none.
fn play_bytes<'a, O: Sink, L: Ledger>(
    alloc: Global,
    bytes: Vec<u8>,
    out: &mut O,
    steps: &mut Steps<L>,
) -> Result<(), Stop<'a>>
    requires { length bytes.items ≤ LONGEST_INPUT }
    ensures done { OnOk result (Does (IsScriptOutcome bytes.items) (O.contents out.old) (O.contents out.new)) }
    ensures stops { IfErr result (WriteStops (IsScriptOutcome bytes.items)
        (stream O.contents O.fault_count out.old) (stream O.contents O.fault_count out.new)) }
{
    let chars = input_chars(alloc, bytes)?;
    match play_script(alloc, &chars, out, steps) {
        Ok(()) => Ok(()),
        Err(refusal) => Err(stop_of(refusal)),
    }
}

// How the work stops where the answers were not all written.
fn stop_of<'a>(refusal: ScriptRefusal) -> Stop<'a>
    ensures { result ≡ script_stop refusal }
{
    match refusal {
        ScriptRefusal::WriteFault => Stop::WriteFault,
        ScriptRefusal::NoMemory => Stop::NoMemory,
    }
}
