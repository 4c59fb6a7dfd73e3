//! Playing whole scripts.
ghost use Rattle.std.specs.Prelude.{◌≡◌, ◌≢◌, ◌≤◌, ℕ, List, Option, codes, encode_utf8_all, length, Err, OnOk, OnErr};
ghost use Rattle.std.specs.Io.KnownBytes.{Appends};
ghost use Rattle.grammar_model.specs.declared.limits.TheConstants.{LONGEST_INPUT};
ghost use Rattle.outside_model.specs.Causes.{Rose};
ghost use Rattle.outside_model.specs.Told.{AppendsPrefix};
ghost use Rattle.flat_model.specs.Flattened.{IsFlattened};
ghost use Rattle.script_model.specs.Commands.{Report, Trees};
ghost use Rattle.script_model.specs.Machine.{that_reads};
ghost use Rattle.script_model.specs.Replies.{as_line, Replies};
ghost use Rattle.marpa_script.specs.Told.{told};
ghost use Rattle.marpa_script.specs.Machines.{building, reading, ReadsBy, LineReplies};
ghost use Rattle.marpa_script.specs.Written.{Replied, BreaksOff, HasPlayedTo, BreaksOffIn, Answered};
ghost use Rattle.marpa_script.specs.declared.refusal.ScriptRefusal.TheVariants.{WriteFault};

use crate::ScriptRefusal;
use crate::answers::{end_line, put};
use crate::commands::{Command, command_by};
use crate::lines::{are_words, first_line, list_words};
use crate::playing::{Ready, build_grammar};
use crate::reading::answer_reading;
use crate::reports::play_report;
use crate::trees::play_trees;
use earley_sets::Recce;
use grammar_core::Written;
use slif_base::{Chars, Sink, Steps};
use std::alloc::Global;
use std::sync::ledger::Ledger;

// Answers a command in one line, and writes it.
fn play_short<K: Sink, L: Ledger>(
    alloc: Global,
    w: &Written,
    recce: &mut Recce<'_>,
    command: Command<'_>,
    line: &mut Vec<u8>,
    out: &mut K,
    steps: &mut Steps<L>,
) -> Result<(), ScriptRefusal>
    requires reads { ReadsBy w.now recce.old }
    requires report { (n : ℕ) → told command ≢ Report n }
    requires trees { (n : ℕ) → told command ≢ Trees n }
    ensures played { OnOk result (Replied (LineReplies (reading w.now recce.old) (told command.entry)) (reading w.now recce.new)
        (K.contents out.old) (K.contents out.new)) }
    ensures breaks { OnErr result (BreaksOff (LineReplies (reading w.now recce.old) (told command.entry)) (K.contents out.old) (K.contents out.new)) }
    ensures reads { ReadsBy w.now recce.new }
    ensures fault { result ≡ Err WriteFault → Rose (K.fault_count out.old) (K.fault_count out.new) }
    ensures later { K.fault_count out.old ≤ K.fault_count out.new }
{
    match answer_reading(alloc, w, recce, command, line, steps) {
        Ok(()) => end_line(line, out),
        Err(_) => Err(ScriptRefusal::NoMemory),
    }
}

// Plays a command while the grammar is read by.
fn play_command<K: Sink, L: Ledger>(
    alloc: Global,
    w: &Written,
    recce: &mut Recce<'_>,
    command: Command<'_>,
    line: &mut Vec<u8>,
    out: &mut K,
    steps: &mut Steps<L>,
) -> Result<(), ScriptRefusal>
    requires { ReadsBy w.now recce.old }
    ensures played { OnOk result (Replied (LineReplies (reading w.now recce.old) (told command.entry)) (reading w.now recce.new)
        (K.contents out.old) (K.contents out.new)) }
    ensures breaks { OnErr result (BreaksOff (LineReplies (reading w.now recce.old) (told command.entry)) (K.contents out.old) (K.contents out.new)) }
    ensures reads { ReadsBy w.now recce.new }
    ensures fault { result ≡ Err WriteFault → Rose (K.fault_count out.old) (K.fault_count out.new) }
    ensures later { K.fault_count out.old ≤ K.fault_count out.new }
{
    match command {
        Command::Report(at) => play_report(alloc, w, recce, at, line, out),
        Command::Trees(count) => play_trees(alloc, w, recce, count, line, out, steps),
        _ => play_short(alloc, w, recce, command, line, out, steps),
    }
}

// Writes that a line is no command.
fn play_bad<K: Sink>(line: &mut Vec<u8>, out: &mut K) -> Result<(), ScriptRefusal>
    ensures ok { OnOk result (Appends (K.contents out.old) (K.contents out.new) (as_line (codes "bad line"))) }
    ensures err { OnErr result (AppendsPrefix (K.contents out.old) (K.contents out.new) (as_line (codes "bad line"))) }
    ensures fault { result ≡ Err WriteFault → Rose (K.fault_count out.old) (K.fault_count out.new) }
    ensures later { K.fault_count out.old ≤ K.fault_count out.new }
{
    match put("bad line", line) {
        Ok(()) => end_line(line, out),
        Err(_) => Err(ScriptRefusal::NoMemory),
    }
}

// Plays one line while the grammar is read by.
fn read_line<'t, K: Sink, L: Ledger>(
    alloc: Global,
    w: &Written,
    recce: &mut Recce<'_>,
    text: &'t str,
    words: &mut Vec<&'t str>,
    line: &mut Vec<u8>,
    out: &mut K,
    steps: &mut Steps<L>,
) -> Result<(), ScriptRefusal>
    requires { ReadsBy w.now recce.old }
    ensures played { OnOk result (Replied (Replies (reading w.now recce.old) text.now) (reading w.now recce.new) (K.contents out.old) (K.contents out.new)) }
    ensures breaks { OnErr result (BreaksOff (Replies (reading w.now recce.old) text.now) (K.contents out.old) (K.contents out.new)) }
    ensures reads { ReadsBy w.now recce.new }
    ensures fault { result ≡ Err WriteFault → Rose (K.fault_count out.old) (K.fault_count out.new) }
    ensures later { K.fault_count out.old ≤ K.fault_count out.new }
{
    let Ok(()) = list_words(text, words) else {
        return Err(ScriptRefusal::NoMemory);
    };
    if !are_words(words) {
        return play_bad(line, out);
    }
    match command_by(words) {
        Some(command) => play_command(alloc, w, recce, command, line, out, steps),
        None => play_bad(line, out),
    }
}

// Plays the lines that are left while the grammar is read by, over room for the words of a line and for an answer.
fn read_lines<'t, K: Sink, L: Ledger>(
    alloc: Global,
    w: &Written,
    recce: &mut Recce<'_>,
    text: &'t str,
    words: &mut Vec<&'t str>,
    line: &mut Vec<u8>,
    out: &mut K,
    steps: &mut Steps<L>,
) -> Result<(), ScriptRefusal>
    requires { ReadsBy w.now recce.old }
    ensures played { OnOk result ((whole : List ℕ) (first : Option (List ℕ)) →
        HasPlayedTo whole text.now (reading w.now recce.old) first (K.contents out.old) → Answered whole first (K.contents out.new)) }
    ensures breaks { OnErr result ((whole : List ℕ) (first : Option (List ℕ)) →
        HasPlayedTo whole text.now (reading w.now recce.old) first (K.contents out.old) → BreaksOffIn whole first (K.contents out.new)) }
    ensures fault { result ≡ Err WriteFault → Rose (K.fault_count out.old) (K.fault_count out.new) }
    ensures later { K.fault_count out.old ≤ K.fault_count out.new }
{
    let mut rest = text;
    while !rest.is_empty() {
        let (first, next) = first_line(rest);
        match read_line(alloc, w, recce, first, words, line, out, steps) {
            Ok(()) => rest = next,
            Err(refusal) => return Err(refusal),
        }
    }
    Ok(())
}

// Reads by the grammar that was built by the lines so far, from its start.
fn read_by<K: Sink, L: Ledger>(
    alloc: Global,
    w: &Written,
    ready: &Ready<'_>,
    out: &mut K,
    steps: &mut Steps<L>,
) -> Result<(), ScriptRefusal>
    requires flat { IsFlattened w.now ready.now.flat }
    requires built { (whole : List ℕ) × (first : Option (List ℕ)) ×
        HasPlayedTo whole ready.now.rest.now (that_reads (building w.now)) first (K.contents out.old) }
    ensures played { OnOk result ((whole : List ℕ) (first : Option (List ℕ)) →
        HasPlayedTo whole ready.now.rest.now (that_reads (building w.now)) first (K.contents out.old) → Answered whole first (K.contents out.new)) }
    ensures breaks { OnErr result ((whole : List ℕ) (first : Option (List ℕ)) →
        HasPlayedTo whole ready.now.rest.now (that_reads (building w.now)) first (K.contents out.old) → BreaksOffIn whole first (K.contents out.new)) }
    ensures fault { result ≡ Err WriteFault → Rose (K.fault_count out.old) (K.fault_count out.new) }
    ensures later { K.fault_count out.old ≤ K.fault_count out.new }
{
    let Ok(mut recce) = Recce::new(alloc, &ready.flat, 0) else {
        return Err(ScriptRefusal::NoMemory);
    };
    let mut words = Vec::new(alloc);
    let mut line = Vec::new(alloc);
    let played = read_lines(
        alloc, w, &mut recce, ready.rest, &mut words, &mut line, out, steps,
    );
    drop(recce);
    played
}

/// Plays a script: writes the answers to its lines, each line of an answer as one piece. After an error a prefix of them was written.
pub fn play_script<K: Sink, L: Ledger>(
    alloc: Global,
    chars: &Chars,
    out: &mut K,
    steps: &mut Steps<L>,
) -> Result<(), ScriptRefusal>
    requires { length chars.now ≤ LONGEST_INPUT }
    ensures played { OnOk result (Answered (encode_utf8_all chars.now) (K.contents out.old) (K.contents out.new)) }
    ensures stops { OnErr result (BreaksOffIn (encode_utf8_all chars.now) (K.contents out.old) (K.contents out.new)) }
    ensures fault { result ≡ Err WriteFault → Rose (K.fault_count out.old) (K.fault_count out.new) }
    ensures later { K.fault_count out.old ≤ K.fault_count out.new }
{
    let text = chars.text(0, chars.len());
    let mut w = Written::new(alloc);
    match build_grammar(alloc, &mut w, text, out) {
        Ok(None) => Ok(()),
        Ok(Some(ready)) => read_by(alloc, &w, &ready, out, steps),
        Err(refusal) => Err(refusal),
    }
}
