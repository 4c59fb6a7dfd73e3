//! Tells what is likely to be a mistake in a grammar that may well be accepted: each with its line, its column and one sentence.
#![tactic(auto)]

mod sentences;
mod stop;
mod telling;
mod words;

use crate::stop::Stop;
use crate::telling::tell;
use crate::words::{Asked, asked_of, words_of};
use slif_base::{DiskFiles, StdSink, StdSource, read_all, read_named};
use std::process::ExitCode;

// A grammar's text has at most so many bytes.
const LONGEST: usize = 1_048_576;

fn main(rt: HostRuntime) -> ExitCode {
    match run(&rt) {
        Ok(0) => ExitCode::from(0),
        Ok(_) => ExitCode::from(1),
        Err(stop) => {
            let _ = eprintln!(rt; "slif_lint: {stop}");
            ExitCode::from(stop.status())
        }
    }
}

/// Writes the hints, and gives how many there are.
fn run(rt: &HostRuntime) -> Result<usize, Stop> {
    let words = words_of(rt)?;
    let Some(asked) = asked_of(&words) else {
        return Err(Stop::Usage);
    };
    let grammar = grammar_of(rt, &asked)?;
    let told = tell(rt.alloc(), &grammar, &mut StdSink::new(rt.stdout()));
    drop(grammar);
    told
}

// The bytes of the file, or of standard input where none is named.
fn grammar_of(rt: &HostRuntime, asked: &Asked<'_>) -> Result<Vec<u8>, Stop> {
    match asked.grammar {
        Some(name) => Ok(read_named(rt.alloc(), &mut DiskFiles::new(rt), name, LONGEST)?),
        None => Ok(read_all(rt.alloc(), &mut StdSource::new(rt.stdin()), LONGEST)?),
    }
}
