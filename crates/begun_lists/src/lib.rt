//! What begins at a place, its predictions, by the symbols that are awaited there: lists that sets share, each made once.
#![tactic(auto)]

mod adding;
mod awaited;
mod begun;
mod lists;
mod met;
mod skipping;

pub use adding::{add_item, add_items, refill};
pub use lists::{Lists, find_list, new_lists};
pub use skipping::{list_skipped, next_symbol};
