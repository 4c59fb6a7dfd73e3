//! Reading by the grammars of a text.
#![tactic(auto)]

mod candidates;
mod kept;
mod names;
mod notes;
mod piece;
mod reading;
mod taking;
mod told;

pub use piece::{Piece, next_piece};
pub use prepared_grammars::{PrepareRefusal, Prepared, prepare};
pub use reading::{Ending, Reader, Reading, read_input};
pub use told::expected_lexemes;
