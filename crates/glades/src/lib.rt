//! The places where a reading is ambiguous, told from its forest without a list of its derivations.
#![tactic(auto)]

mod heads;
mod links;
mod report;
mod seconds;
mod shapes;
mod types;

pub use report::report_glades;
pub use types::{Glade, Shape, Starts};
