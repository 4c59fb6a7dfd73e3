//! Glades of one kind are told once, at the smallest of them.
#![tactic(auto)]

mod kinds;
mod marks;
mod notes;

pub use marks::{marks_of, single_marks};
