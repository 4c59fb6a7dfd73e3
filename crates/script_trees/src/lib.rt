//! The lines of derivations, as scripts tell them: a token by its name, its place and its end.
#![tactic(auto)]

mod lines;
mod values;

pub use lines::TreeLines;
