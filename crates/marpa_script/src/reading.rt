//! The lines by which a grammar is read, but for reports and derivations. Each call puts the text of the answer in place of what the line held;
//! nothing is written here.
ghost use Rattle.std.specs.Prelude.{◌≡◌, ◌≢◌, ◌≤◌, ℕ, OnOk};
ghost use Rattle.grammar_model.specs.Grammar.{Grammar};
ghost use Rattle.earley_sets.specs.Recognizer.{earleme_of};
ghost use Rattle.script_model.specs.Commands.{Report, Trees};
ghost use Rattle.script_model.specs.Replies.{says, complete_reply, AlternativeReplies, ExpectedReplies};
ghost use Rattle.marpa_script.specs.Told.{told};
ghost use Rattle.marpa_script.specs.Machines.{reading, ReadsBy, LineReplies};

use crate::answers::{put, put_number};
use crate::commands::Command;
use crate::names::put_names;
use earley_sets::{AlternativeRefusal, Recce, expected_are_acceptable};
use grammar_core::Written;
use slif_base::Steps;
use std::alloc::{AllocError, Global};
use std::sync::ledger::Ledger;

const LAST_PLACE: u32 = 1_000_000;

// `alternative NAME LENGTH`.
fn answer_alternative(
    w: &Written,
    recce: &mut Recce<'_>,
    name: &str,
    length: u32,
    line: &mut Vec<u8>,
) -> Result<(), AllocError>
    requires { ReadsBy w.now recce.old }
    ensures replies { OnOk result (AlternativeReplies (reading w.now recce.old) name.now length (says (reading w.now recce.new) line.new.items)) }
    ensures same { (recce.new.flat ≡ recce.old.flat) × (recce.new.start ≡ recce.old.start) × (recce.new.sets ≡ recce.old.sets) }
{
    expected_are_acceptable();
    let _place = recce.place();
    let Some(symbol) = w.symbol_named(name) else {
        return put("bad name", line);
    };
    match recce.alternative(symbol, length) {
        Ok(()) => put("taken", line),
        Err(AlternativeRefusal::Unexpected) => put("unexpected", line),
        Err(AlternativeRefusal::Duplicate) => put("duplicate", line),
        Err(AlternativeRefusal::BadLength) => put("bad length", line),
        Err(AlternativeRefusal::NoMemory) => Err(AllocError),
    }
}

// `complete`.
fn answer_complete<L: Ledger>(
    recce: &mut Recce<'_>,
    line: &mut Vec<u8>,
    steps: &mut Steps<L>,
) -> Result<(), AllocError>
    requires { earleme_of recce.old ≤ 1000000 }
    ensures replies { OnOk result ((g : Grammar) → says (reading g recce.new) line.new.items ≡ complete_reply (reading g recce.old)) }
    ensures same { (recce.new.flat ≡ recce.old.flat) × (recce.new.start ≡ recce.old.start) }
    ensures within { earleme_of recce.new ≤ 1000000 }
{
    let place = recce.place();
    if place == LAST_PLACE {
        return put("last place", line);
    }
    recce.complete_earleme(steps)?;
    put_number("place ", recce.place(), line)
}

// `expected`.
fn answer_expected(
    alloc: Global,
    w: &Written,
    recce: &Recce<'_>,
    line: &mut Vec<u8>,
) -> Result<(), AllocError>
    requires { ReadsBy w.now recce.now }
    ensures { OnOk result (ExpectedReplies (reading w.now recce.now) (says (reading w.now recce.now) line.new.items)) }
{
    w.known();
    expected_are_acceptable();
    let _place = recce.place();
    let symbols = recce.expected(alloc)?;
    put_names(w, &symbols, line)
}

/// Answers a command of any phase but `report` and `trees`: one that builds is not played now. Only memory may be wanting; then the recognizer
/// may have gone on.
pub fn answer_reading<L: Ledger>(
    alloc: Global,
    w: &Written,
    recce: &mut Recce<'_>,
    command: Command<'_>,
    line: &mut Vec<u8>,
    steps: &mut Steps<L>,
) -> Result<(), AllocError>
    requires reads { ReadsBy w.now recce.old }
    requires report { (n : ℕ) → told command ≢ Report n }
    requires trees { (n : ℕ) → told command ≢ Trees n }
    ensures replies { OnOk result (LineReplies (reading w.now recce.old) (told command.entry) (says (reading w.now recce.new) line.new.items)) }
    ensures reads { ReadsBy w.now recce.new }
{
    match command {
        Command::Alternative { name, length } => answer_alternative(w, recce, name, length, line),
        Command::Complete => answer_complete(recce, line, steps),
        Command::Expected => answer_expected(alloc, w, recce, line),
        Command::Report(_) => unreachable!(),
        Command::Trees(_) => unreachable!(),
        Command::Symbol(_) => put("not now", line),
        Command::Rule { .. } => put("not now", line),
        Command::Sequence { .. } => put("not now", line),
        Command::Start(_) => put("not now", line),
        Command::Precompute => put("not now", line),
    }
}
