//! Lists of numbers that rise, which rows of items share. What is below each bound is counted when a list is made, so that the numbers
//! between two bounds are found by their places.
#![tactic(auto)]

mod counts;
mod lists;
mod places;

pub use counts::{count, count_while, count_while_from};
pub use lists::SharedLists;
pub use places::{Noted, Places};
