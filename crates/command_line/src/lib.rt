//! The words of the command line, read by `clap`.
#![tactic(auto)]

mod asked;
mod command;
mod job;
mod names;
mod value;
mod words;

pub use job::{InputFrom, Job, MoreAsked, Task, Telling, USAGE, ValuesAsked};
pub use words::read_words;
