//! A derivation folded by its steps, children before their rule, with a semantics of the caller's own.
#![tactic(auto)]

mod fold;
mod semantics;

pub use fold::fold_steps;
pub use semantics::{FoldError, Semantics, Token};
