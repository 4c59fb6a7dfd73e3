//! The lines of the derivations of a reading, one after another in the declared order, and those of its numbers.
#![tactic(auto)]

mod counts;
mod derivation;
mod lines;
mod page;
mod writing;

pub use counts::{count_derivations, stats_line, work_line};
pub use derivation::write_derivation;
pub use lines::next_line;
pub use page::{Page, PageRefusal, write_page};
pub use writing::{WriteRefusal, write_derivations};
