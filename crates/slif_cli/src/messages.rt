// What is told of a stop on the standard error.
ghost use Rattle.std.specs.Prelude.{◌≡◌, ◌≤◌, IfOk};
ghost use Rattle.run_model.specs.Outside.{stream};
ghost use Rattle.run_model.specs.Runs.{fault_line};
ghost use Rattle.run_model.specs.Runs.Fault.{CannotOpen};
ghost use Rattle.run_model.specs.Outcome.{message};
ghost use Rattle.tellings.specs.Stops.{refusal_outcome};
ghost use Rattle.slif_cli.specs.Stops.{Reports, Tells};

use command_line::USAGE;
use slif_base::{Sink, write_all};
use std::alloc::{AllocError, Global};
use tellings::{Refusal, Stop};
use text_reading::append_in_line;

/// The status of a fault of the outside.
pub const FAULT: u8 = 4;

/// The status where memory ran out.
pub const OUT_OF_MEMORY: u8 = 5;

/// Writes the line of a stop, and answers the status.
pub fn report<E: Sink>(alloc: Global, stop: Stop<'_>, err: &mut E) -> u8
    ensures { Reports (stream E.contents E.fault_count err.old) (stream E.contents E.fault_count err.new) result stop.entry }
{
    match stop {
        Stop::Refused(refusal) => report_refusal(alloc, refusal, err),
        Stop::OpenFault(name) => match open_line(alloc, name) {
            Ok(line) => tell(err, &line, FAULT),
            Err(_) => tell(err, b"slif: out of memory\n", OUT_OF_MEMORY),
        },
        Stop::ReadFault => tell(err, b"slif: read fault\n", FAULT),
        Stop::WriteFault => tell(err, b"slif: write fault\n", FAULT),
        Stop::NoMemory => tell(err, b"slif: out of memory\n", OUT_OF_MEMORY),
    }
}

fn report_refusal<E: Sink>(alloc: Global, refusal: Refusal, err: &mut E) -> u8
    ensures { Reports (stream E.contents E.fault_count err.old) (stream E.contents E.fault_count err.new) result (Stop.Refused refusal) }
{
    match refusal_line(alloc, &refusal) {
        Ok(line) => refuse(&refusal, &line, err),
        Err(_) => tell(err, b"slif: out of memory\n", OUT_OF_MEMORY),
    }
}

// Writes the line of a refusal. Where that fails, the fault is told.
fn refuse<E: Sink>(refusal: &Refusal, line: &[u8], err: &mut E) -> u8
    requires { line.now ≡ (refusal_outcome refusal.now).line }
    ensures { Reports (stream E.contents E.fault_count err.old) (stream E.contents E.fault_count err.new) result (Stop.Refused refusal.now) }
{
    match write_all(err, line) {
        Ok(()) => refusal_status(refusal),
        Err(_) => tell(err, b"slif: write fault\n", FAULT),
    }
}

fn refusal_line(alloc: Global, refusal: &Refusal) -> Result<Vec<u8>, AllocError>
    ensures { IfOk result (λ line. line.items ≡ (refusal_outcome refusal.now).line) }
{
    match refusal {
        Refusal::Usage => message(alloc, USAGE),
        Refusal::Grammar { text } | Refusal::Input { text } => message(alloc, text),
    }
}

// The text as one line.
fn message(alloc: Global, text: &[u8]) -> Result<Vec<u8>, AllocError>
    ensures { IfOk result (λ line. line.items ≡ message text.now) }
{
    let text = String::from_utf8_lossy(alloc, text)?;
    let mut line = String::from_str(alloc, "slif: ")?;
    append_in_line(&text, &mut line)?;
    line.push('\n')?;
    Ok(line.into_bytes())
}

fn refusal_status(refusal: &Refusal) -> u8
    ensures { result ≡ (refusal_outcome refusal.now).status }
{
    match refusal {
        Refusal::Usage => 2,
        Refusal::Input { .. } => 1,
        Refusal::Grammar { .. } => 3,
    }
}

// Tries a line once.
fn tell<E: Sink>(err: &mut E, line: &[u8], status: u8) -> u8
    ensures same { result ≡ status }
    ensures later { E.fault_count err.old ≤ E.fault_count err.new }
    ensures told { Tells (stream E.contents E.fault_count err.old) (stream E.contents E.fault_count err.new) line.now }
{
    let _ = write_all(err, line);
    status
}

fn open_line(alloc: Global, name: &str) -> Result<Vec<u8>, AllocError>
    ensures { IfOk result (λ line. line.items ≡ fault_line (CannotOpen name.now)) }
{
    let mut text = Vec::from_slice(alloc, b"cannot open ")?;
    text.extend_from_slice(name.as_bytes())?;
    message(alloc, &text)
}
