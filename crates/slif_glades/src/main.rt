//! Tells where an input is ambiguous by a grammar, and how, for people.
#![tactic(auto)]

mod glade_text;
mod lines;
mod pieces;
mod stop;
mod telling;
mod words;

use crate::stop::Stop;
use crate::telling::tell;
use crate::words::{Asked, asked_of, words_of};
use slif_base::{DiskFiles, StdSink, StdSource, read_all, read_named};
use std::process::ExitCode;

fn main(rt: HostRuntime) -> ExitCode {
    match run(&rt) {
        Ok(()) => ExitCode::from(0),
        Err(stop) => {
            let _ = eprintln!(rt; "slif_glades: {stop}");
            ExitCode::from(stop.status())
        }
    }
}

fn run(rt: &HostRuntime) -> Result<(), Stop> {
    let words = words_of(rt)?;
    let Some(asked) = asked_of(&words) else {
        return Err(Stop::Usage);
    };
    let grammar = read_named(
        rt.alloc(),
        &mut DiskFiles::new(rt),
        asked.grammar,
        usize::MAX,
    )?;
    let input = input_of(rt, &asked)?;
    let told = tell(
        rt.alloc(),
        &grammar,
        &input,
        asked.all,
        &mut StdSink::new(rt.stdout()),
    );
    drop(input);
    drop(grammar);
    told
}

// The bytes of the file, or of standard input where none is named.
fn input_of(rt: &HostRuntime, asked: &Asked<'_>) -> Result<Vec<u8>, Stop> {
    match asked.input {
        Some(name) => Ok(read_named(rt.alloc(), &mut DiskFiles::new(rt), name, usize::MAX)?),
        None => Ok(read_all(rt.alloc(), &mut StdSource::new(rt.stdin()), usize::MAX)?),
    }
}
