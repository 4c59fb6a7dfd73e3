//! The grammars of a text, ready to read with: both checked and flattened, and what is looked up in them.
#![tactic(auto)]

mod abilities;
mod lookups;
mod parts;
mod prepared;
mod refusal;

pub use lookups::{Lookups, add_starts};
pub use prepared::{Prepared, prepare};
pub use refusal::PrepareRefusal;
