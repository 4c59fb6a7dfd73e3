//! For tests alone: grammars by tables of their rules, readings by them, and what is asked of a reading.
#![tactic(auto)]

mod grammars;
mod questions;
mod tokens;

pub use grammars::{COMMAS, HIGH, LOW, Language, Line, List, PIECES, SUM};
pub use questions::{Question, Row, are_rows, is_so};
pub use tokens::{Input, Token};
