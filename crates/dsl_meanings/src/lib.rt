//! What the rules and the lexemes of a description mean.
#![tactic(auto)]

mod defaults;
mod meanings;

pub use defaults::{default_value, meaning};
