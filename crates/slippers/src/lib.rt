//! Reading with lexemes that are supplied where it is stuck.
#![tactic(auto)]

mod list;
mod reading;
mod supplier;

pub use list::ListSupplier;
pub use reading::read_slipping;
pub use supplier::Supplier;
