//! The derivations of a forest, one after another in the declared order.
#![tactic(auto)]

mod goals;
mod iter;
mod jump;
mod leads;
mod walk;

pub use iter::TreeIter;
