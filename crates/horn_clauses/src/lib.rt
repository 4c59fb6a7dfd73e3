//! Least sets of numbers by definite Horn clauses, and the lists that they are found with.
#![tactic(auto)]

mod clause_list;
mod gathered;
mod least;
mod number_set;

pub use clause_list::Clauses;
pub use gathered::{Gathered, Linked};
pub use least::least_set;
pub use number_set::NumberSet;
