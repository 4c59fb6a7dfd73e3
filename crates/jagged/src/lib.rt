//! Lists of lists that are kept end to end in one array.
#![tactic(auto)]

mod array;

pub use array::Jagged;
