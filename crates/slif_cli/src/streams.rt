// Which sinks may be which stream of a run, so that a type tells them apart.
use slif_base::{MemSink, Sink, StdSink};
use std::rt::{Stderr, Stdout};

/// A sink that may be the standard output of a run. Of the process's own streams only the standard output is one.
pub trait StandardOutput: Sink {}

/// A sink that may be the standard error of a run. Of the process's own streams only the standard error is one.
pub trait StandardError: Sink {}

impl StandardOutput for StdSink<Stdout> {}

impl StandardError for StdSink<Stderr> {}

impl StandardOutput for MemSink {}

impl StandardError for MemSink {}
