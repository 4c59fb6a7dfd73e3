//! Telling a derivation's steps to those who make values of them.
#![tactic(auto)]

mod array;
mod make;
mod nulling;
mod playing;
mod stack;
mod teller;
mod tree;

pub use array::ArrayTeller;
pub use grammar_model::Show;
pub use playing::{Player, play};
pub use teller::Teller;
pub use tree::TreeTeller;
