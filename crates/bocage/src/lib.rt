//! The shared packed forest of a reading: the chosen derivations of the start, each way to derive a prefix of a rule over a span once.
#![tactic(auto)]

mod ends;
mod forest;
mod joins;
mod refusal;
mod rows;
mod walk;

pub use forest::{Alternatives, Forest, Stats};
pub use refusal::ForestRefusal;
pub use rows::Cause;
