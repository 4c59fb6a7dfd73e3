//! Grammars read from their texts.
#![tactic(auto)]

mod adverbs;
mod alternatives;
mod parsing;
mod piece;
mod refusal;
mod spelling;
mod statement_laws;
mod statements;

pub use dsl_statement::{Adverb, Alternative, Description, Element, Spelled, Statement};
pub use parsing::parse;
pub use refusal::StatementRefusal;
pub use statement_laws::{
    adverbs_are_read, alternatives_are_read, bad_statement_is_one, description_is_one,
    description_or_bad_statement, descriptions_exclude_bad_statements, statements_are_cut,
    statements_are_read, statements_are_told_apart,
};
