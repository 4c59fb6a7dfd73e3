//! Sets of items in the order of adding, each once: few are gone through, and many are looked up by a hash.
#![tactic(auto)]

mod item_set;
mod near;

pub use item_set::{ItemSet, is_among};
pub use near::NearHasher;
