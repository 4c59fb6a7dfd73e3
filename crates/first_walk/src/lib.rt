//! The first derivation of a reading, by a walk from the last place to the first, without a forest.
#![tactic(auto)]

mod joined;
mod laws;
mod near;
mod place;
mod walk;

pub use laws::walks_are_first;
pub use walk::{Walked, first_derivation};
