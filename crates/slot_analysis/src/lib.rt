//! What a written grammar's slots can do: which are nullable, productive and accessible.
#![tactic(auto)]

mod analysis;
mod children;
mod clauses;
mod levels;
mod packed;
mod rules;
mod slots;
mod steps;

pub use analysis::{Analysis, Slots};
pub use children::child_at;
pub use clauses::{child_number, head_number};
pub use packed::Packed;
pub use rules::needed_count;
