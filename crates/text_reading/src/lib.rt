//! From the bytes of a grammar and of an input to what is read of them, or to the refusal that tells why not.
#![tactic(auto)]

mod forests;
mod grammar;
mod inputs;
mod lexemes;
mod lines;
mod phrases;
mod refusal;
mod supplying;

pub use forests::{first_of, forest_after, forest_of, only_of};
pub use grammar::{grammar_of, long_grammar_text, read_grammar};
pub use inputs::{append_names, input_chars, input_too_long, long_input_text, read_text, whole};
pub use lexemes::lexeme_named;
pub use lines::append_in_line;
pub use refusal::{Place, Refusal};
pub use supplying::read_supplied;
