//! Rows of threads: Earley sets without places, so that equal rows are one row.
#![tactic(auto)]

mod close;
mod fold;
mod lists;
mod order;
mod part;
mod row;
mod scan;
mod terminals;

pub use fold::{is_start, next_symbol};
pub use lists::Lists;
pub use recognizer_model::{Label, Thread};
pub use row::{first_row, next_row};
