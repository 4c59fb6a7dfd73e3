//! Values, their text, and what the rules of a grammar mean.
#![tactic(auto)]

mod descriptor;
mod meaning;
mod pool;
mod text;

pub use descriptor::{DescriptorRefusal, read_descriptor};
pub use grammar_model::DescItem;
pub use meaning::{Action, Items, Meaning, RuleMeaning};
pub use pool::{Pool, ValueId};
pub use std::alloc::AllocError as NoMemory;
pub use text::append_text;
