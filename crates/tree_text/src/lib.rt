//! The texts of values, read back, and trees among them, shown.
#![tactic(auto)]

mod characters;
mod difference;
mod dot;
mod indent;
mod json;
mod labels;
mod looks;
mod nodes;
mod part;
mod puts;
mod read;
mod telling;

pub use difference::{Difference, first_difference};
pub use dot::push_dot;
pub use indent::push_indented;
pub use json::push_json;
pub use labels::{push_label, push_name};
pub use nodes::{Label, Node, nodes_of};
pub use part::{Part, ReadRefusal};
pub use read::read_value;
pub use telling::push_difference;
