//! Playing the lines of a script by which its grammar is built.
ghost use Rattle.std.specs.Prelude.{◌≡◌, ◌<◌, ◌≤◌, length, Err, IfOk, IfSome, IsNone, OnOk, OnErr};
ghost use Rattle.grammar_model.specs.declared.limits.TheConstants.{MOST_ENTRIES};
ghost use Rattle.outside_model.specs.Causes.{Rose};
ghost use Rattle.flat_model.specs.Flattened.{IsFlattened};
ghost use Rattle.script_model.specs.Commands.{lines_of};
ghost use Rattle.script_model.specs.Machine.{blank, that_reads};
ghost use Rattle.script_model.specs.Replies.{says, Replies};
ghost use Rattle.marpa_script.specs.Told.{told};
ghost use Rattle.marpa_script.specs.Machines.{building, after_precompute, LineReplies};
ghost use Rattle.marpa_script.specs.Written.{Replied, BreaksOff, HasPlayed, HasPlayedTo, BreaksOffIn};
ghost use Rattle.marpa_script.specs.declared.refusal.ScriptRefusal.TheVariants.{WriteFault};

use crate::ScriptRefusal;
use crate::answers::{end_line, put};
use crate::building::answer_building;
use crate::commands::{Command, command_by};
use crate::lines::{are_words, first_line, list_words};
use crate::precomputing::answer_precompute;
use grammar_core::{Flat, Written};
use slif_base::Sink;
use std::alloc::{AllocError, Global};

// The answer to a command.
fn answer_command(
    alloc: Global,
    w: &mut Written,
    command: Command<'_>,
    line: &mut Vec<u8>,
) -> Result<Option<Flat>, AllocError>
    requires names { length w.old.names < MOST_ENTRIES }
    requires rules { length w.old.rules < MOST_ENTRIES }
    ensures replies { IfOk result (λ o. LineReplies (building w.old) (told command.entry) (says (after_precompute w.new o) line.new.items)) }
    ensures flat { IfOk result (λ o. IfSome o (λ flat. IsFlattened w.new flat)) }
{
    match command {
        Command::Precompute => answer_precompute(alloc, w, line),
        _ => {
            answer_building(alloc, w, command, line)?;
            Ok(None)
        }
    }
}

/// Puts the text of the answer to a line in place of what `line` held: the flat grammar, where the grammar is now ready to be read by. Only memory
/// may be wanting; then the grammar may have grown.
pub fn answer_line<'t>(
    alloc: Global,
    w: &mut Written,
    text: &'t str,
    words: &mut Vec<&'t str>,
    line: &mut Vec<u8>,
) -> Result<Option<Flat>, AllocError>
    requires names { length w.old.names < MOST_ENTRIES }
    requires rules { length w.old.rules < MOST_ENTRIES }
    ensures replies { IfOk result (λ o. Replies (building w.old) text.now (says (after_precompute w.new o) line.new.items)) }
    ensures flat { IfOk result (λ o. IfSome o (λ flat. IsFlattened w.new flat)) }
{
    list_words(text, words)?;
    if !are_words(words) {
        put("bad line", line)?;
        return Ok(None);
    }
    match command_by(words) {
        Some(command) => answer_command(alloc, w, command, line),
        None => {
            put("bad line", line)?;
            Ok(None)
        }
    }
}

// Plays one line: its answer is written, as one piece.
fn play_line<'t, K: Sink>(
    alloc: Global,
    w: &mut Written,
    text: &'t str,
    words: &mut Vec<&'t str>,
    line: &mut Vec<u8>,
    out: &mut K,
) -> Result<Option<Flat>, ScriptRefusal>
    requires names { length w.old.names < MOST_ENTRIES }
    requires rules { length w.old.rules < MOST_ENTRIES }
    ensures played { IfOk result (λ o. Replied (Replies (building w.old) text.now) (after_precompute w.new o) (K.contents out.old) (K.contents out.new)) }
    ensures flat { IfOk result (λ o. IfSome o (λ flat. IsFlattened w.new flat)) }
    ensures breaks { OnErr result (BreaksOff (Replies (building w.old) text.now) (K.contents out.old) (K.contents out.new)) }
    ensures fault { result ≡ Err WriteFault → Rose (K.fault_count out.old) (K.fault_count out.new) }
    ensures later { K.fault_count out.old ≤ K.fault_count out.new }
{
    let Ok(flat) = answer_line(alloc, w, text, words, line) else {
        return Err(ScriptRefusal::NoMemory);
    };
    match end_line(line, out) {
        Ok(()) => Ok(flat),
        Err(refusal) => Err(refusal),
    }
}

/// The flat grammar of a grammar that is ready to be read by, and the text that follows the line that was answered so.
pub struct Ready<'t> {
    pub flat: Flat,
    pub rest: &'t str,
}

// Written out, so that whoever lets it go does so by one call.
impl<'t> Drop for Ready<'t> {
    fn drop(self) {
        let Ready { flat: _, rest: _ } = self;
    }
}

// Plays the lines, over room for the words of a line and for an answer.
fn play_lines<'t, K: Sink>(
    alloc: Global,
    w: &mut Written,
    text: &'t str,
    words: &mut Vec<&'t str>,
    line: &mut Vec<u8>,
    out: &mut K,
) -> Result<Option<Ready<'t>>, ScriptRefusal>
    requires blank { w.old ≡ blank.grammar }
    requires few { length text.now ≤ 67108864 }
    ensures all { IfOk result (λ o. IsNone o → HasPlayed (lines_of text.now) (building w.new) (K.contents out.old) (K.contents out.new)) }
    ensures ready { IfOk result (λ o. IfSome o (λ ready.
        HasPlayedTo text.now ready.rest.now (that_reads (building w.new)) (K.contents out.old) (K.contents out.new))) }
    ensures flat { IfOk result (λ o. IfSome o (λ ready. IsFlattened w.new ready.flat)) }
    ensures breaks { OnErr result (BreaksOffIn text.now (K.contents out.old) (K.contents out.new)) }
    ensures fault { result ≡ Err WriteFault → Rose (K.fault_count out.old) (K.fault_count out.new) }
    ensures later { K.fault_count out.old ≤ K.fault_count out.new }
{
    let mut rest = text;
    while !rest.is_empty() {
        let (first, next) = first_line(rest);
        match play_line(alloc, w, first, words, line, out) {
            Ok(None) => rest = next,
            Ok(Some(flat)) => return Ok(Some(Ready { flat, rest: next })),
            Err(refusal) => return Err(refusal),
        }
    }
    Ok(None)
}

/// Plays the lines of a text up to the one that is answered `ready`, or all. The grammar has nothing yet. After an error a prefix of the
/// answers to the text was written.
pub fn build_grammar<'t, K: Sink>(
    alloc: Global,
    w: &mut Written,
    text: &'t str,
    out: &mut K,
) -> Result<Option<Ready<'t>>, ScriptRefusal>
    requires blank { w.old ≡ blank.grammar }
    requires few { length text.now ≤ 67108864 }
    ensures all { IfOk result (λ o. IsNone o → HasPlayed (lines_of text.now) (building w.new) (K.contents out.old) (K.contents out.new)) }
    ensures ready { IfOk result (λ o. IfSome o (λ ready.
        HasPlayedTo text.now ready.rest.now (that_reads (building w.new)) (K.contents out.old) (K.contents out.new))) }
    ensures flat { IfOk result (λ o. IfSome o (λ ready. IsFlattened w.new ready.flat)) }
    ensures breaks { OnErr result (BreaksOffIn text.now (K.contents out.old) (K.contents out.new)) }
    ensures fault { result ≡ Err WriteFault → Rose (K.fault_count out.old) (K.fault_count out.new) }
    ensures later { K.fault_count out.old ≤ K.fault_count out.new }
{
    let mut words = Vec::new(alloc);
    let mut line = Vec::new(alloc);
    play_lines(alloc, w, text, &mut words, &mut line, out)
}
