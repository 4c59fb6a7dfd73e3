//! Building: from the statements of a grammar text to its two grammars and their tables.
#![tactic(auto)]

mod building;
mod built;
mod laws;
mod lexemes;
mod lexical;
mod numbers;
mod placed;
mod quoted;
mod resolving;
mod rules;
mod sets;
mod symbols;
mod texts;
mod writing;

pub use building::build;
pub use built::{Built, LexemeRow};
pub use dsl_faults::{BuildRefusal, check};
pub use laws::{built_is_in_range, terminals_have_sets};
