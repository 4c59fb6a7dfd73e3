//! What may be the cause in a node that ends at a place, its last part: the edges and whole rules that end there, in the declared order, in groups of one symbol over one span.
#![tactic(auto)]

mod chains;
mod counts;
mod gather;
mod given;
mod groups;
mod keys;
mod needed;
mod outranked;
mod parts;
mod unasked;

pub use chains::{Chains, list_nodes, new_chains};
pub use counts::count_expanded;
pub use gather::{list_hidden, list_parts};
pub use given::{Given, GivenHere};
pub use groups::{Group, list_groups};
pub use keys::{NodeKeys, key_at};
pub use needed::{list_needed, list_needed_after};
pub use parts::{Part, RuleKey, is_null_high, parts_between};
