//! The cursor of a derivation, written and read: its steps as a text, without their places.
#![tactic(auto)]

mod pieces;
mod reading;
mod refusal;
mod stack;
mod writing;

pub use reading::read_cursor;
pub use refusal::CursorRefusal;
pub use writing::write_cursor;
