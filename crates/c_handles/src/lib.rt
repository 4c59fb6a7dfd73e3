//! What the library for C holds for its callers, and what it tells them: handles, derivations by steps and lines, refusals by codes.
#![tactic(auto)]

pub mod codes;
mod copying;
mod derivations;
mod fault;
mod grammar_handle;
mod parse;
mod parse_handle;
mod parts;
mod placed;
mod scan_handle;
mod shared;
mod steps;

pub use copying::copy_front;
pub use derivations::derive;
pub use fault::{Fault, copy_numbers, tell};
pub use grammar_handle::GrammarHandle;
pub use parse::Parse;
pub use parse_handle::ParseHandle;
pub use placed::boxed_derivations;
pub use scan_handle::ScanHandle;
pub use shared::SharedGrammar;
pub use steps::Step;
