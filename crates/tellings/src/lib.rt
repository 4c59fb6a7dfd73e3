//! What is told of an input that is read to its end, a module for each kind.
#![tactic(auto)]

mod expecting;
mod glade_lines;
mod glading;
mod paging;
mod places;
mod reading;
mod reporting;
mod stop;
mod values;
mod writing;

pub use reading::tell_reading;
pub use stop::{Refusal, Stop};
pub use writing::write_lines;
