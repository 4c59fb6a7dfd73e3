//! The lines of answers.
ghost use Rattle.std.specs.Prelude.{◌≡◌, ◌≤◌, ◌++◌, OnOk, OnErr, Err, decimal};
ghost use Rattle.std.specs.Io.KnownBytes.{Appends};
ghost use Rattle.outside_model.specs.Causes.{Rose};
ghost use Rattle.outside_model.specs.Told.{AppendsPrefix};
ghost use Rattle.script_model.specs.Replies.{as_line};
ghost use Rattle.marpa_script.specs.declared.refusal.ScriptRefusal.TheVariants.{WriteFault};

use crate::ScriptRefusal;
use itoa::Buffer;
use slif_base::{Sink, write_all};
use std::alloc::AllocError;

/// Puts a text in place of what the line held.
pub fn put(text: &str, line: &mut Vec<u8>) -> Result<(), AllocError>
    ensures { OnOk result (line.new.items ≡ text.now) }
{
    line.clear();
    line.extend_from_slice(text.as_bytes())?;
    Ok(())
}

/// Puts a word and a number after it in place of what the line held.
pub fn put_number(word: &str, number: u32, line: &mut Vec<u8>) -> Result<(), AllocError>
    ensures { OnOk result (line.new.items ≡ word.now ++ decimal number) }
{
    line.clear();
    line.extend_from_slice(word.as_bytes())?;
    line.extend_from_slice(Buffer::new().format(number).as_bytes())?;
    Ok(())
}

/// Puts a word and a count after it in place of what the line held.
pub fn put_count(word: &str, count: usize, line: &mut Vec<u8>) -> Result<(), AllocError>
    ensures { OnOk result (line.new.items ≡ word.now ++ decimal count) }
{
    line.clear();
    line.extend_from_slice(word.as_bytes())?;
    line.extend_from_slice(Buffer::new().format(count).as_bytes())?;
    Ok(())
}

/// Writes bytes as one piece. Where it fails, a prefix was written.
pub fn write_piece<K: Sink>(piece: &[u8], out: &mut K) -> Result<(), ScriptRefusal>
    ensures ok { OnOk result (Appends (K.contents out.old) (K.contents out.new) piece.now) }
    ensures err { OnErr result (AppendsPrefix (K.contents out.old) (K.contents out.new) piece.now) }
    ensures fault { result ≡ Err WriteFault → Rose (K.fault_count out.old) (K.fault_count out.new) }
    ensures later { K.fault_count out.old ≤ K.fault_count out.new }
{
    match write_all(out, piece) {
        Ok(()) => Ok(()),
        Err(_) => Err(ScriptRefusal::WriteFault),
    }
}

/// Writes the line with its end, as one piece. Where it fails, a prefix was written.
pub fn end_line<K: Sink>(line: &mut Vec<u8>, out: &mut K) -> Result<(), ScriptRefusal>
    ensures ok { OnOk result (Appends (K.contents out.old) (K.contents out.new) (as_line line.old.items)) }
    ensures err { OnErr result (AppendsPrefix (K.contents out.old) (K.contents out.new) (as_line line.old.items)) }
    ensures fault { result ≡ Err WriteFault → Rose (K.fault_count out.old) (K.fault_count out.new) }
    ensures later { K.fault_count out.old ≤ K.fault_count out.new }
{
    if line.push(b'\n').is_err() {
        return Err(ScriptRefusal::NoMemory);
    }
    match write_all(out, line) {
        Ok(()) => Ok(()),
        Err(_) => Err(ScriptRefusal::WriteFault),
    }
}

/// Writes a line of a word and a count after it.
pub fn write_count<K: Sink>(
    word: &str,
    count: usize,
    line: &mut Vec<u8>,
    out: &mut K,
) -> Result<(), ScriptRefusal>
    ensures ok { OnOk result (Appends (K.contents out.old) (K.contents out.new) (as_line (word.now ++ decimal count))) }
    ensures err { OnErr result (AppendsPrefix (K.contents out.old) (K.contents out.new) (as_line (word.now ++ decimal count))) }
    ensures fault { result ≡ Err WriteFault → Rose (K.fault_count out.old) (K.fault_count out.new) }
    ensures later { K.fault_count out.old ≤ K.fault_count out.new }
{
    match put_count(word, count, line) {
        Ok(()) => end_line(line, out),
        Err(_) => Err(ScriptRefusal::NoMemory),
    }
}
