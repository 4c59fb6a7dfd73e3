//! Steps of flat derivations, written one after another as steps of the written grammar.
#![tactic(auto)]

mod writing;

pub use writing::{CountRow, FlatStep, is_list_rule, write_step, write_steps};
