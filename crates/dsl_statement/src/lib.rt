//! The statements of a grammar text, as programs hold them.
#![tactic(auto)]

mod statement;

pub use language_model::TokenKind;
pub use statement::{Adverb, Alternative, Description, Element, Level, Spelled, Statement};
