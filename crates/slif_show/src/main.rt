//! Shows the trees that `slif run --show tree` writes.
#![tactic(auto)]

mod lines;
mod show;
mod stop;
mod words;

use crate::show::show;
use crate::stop::Stop;
use crate::words::form_of;
use slif_base::{StdSink, StdSource};
use std::process::ExitCode;

// A picture of more nodes than these is hard to read.
const MANY: usize = 500;

fn main(rt: HostRuntime) -> ExitCode {
    match run(&rt) {
        Ok(drawn) => {
            if drawn > MANY {
                let _ = eprintln!(rt; "slif_show: the picture has {drawn} nodes");
            }
            ExitCode::from(0)
        }
        Err(stop) => {
            let _ = eprintln!(rt; "slif_show: {stop}");
            ExitCode::from(stop.status())
        }
    }
}

fn run(rt: &HostRuntime) -> Result<usize, Stop> {
    let form = form_of(rt)?;
    let source = StdSource::new(rt.stdin());
    show(rt.alloc(), form, source, &mut StdSink::new(rt.stdout()))
}
