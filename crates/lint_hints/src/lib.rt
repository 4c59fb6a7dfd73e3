//! What is likely to be a mistake in a grammar, by its statements: each hint is a place and a fault.
#![tactic(auto)]

mod hint;
mod hints;
mod nullable;
mod operators;
mod sides;
mod spellings;
mod uses;

pub use hint::{Fault, Hint};
pub use hints::hints_of;
pub use spellings::has_piece;
