//! The top call of the program.
#![tactic(auto)]

mod checking;
mod giving;
mod grammar;
mod hands;
mod inputs;
mod laws;
mod messages;
mod scripting;
mod streams;
mod telling;
mod top;
mod working;

pub use laws::{
    going_on_is_whole, has_end, has_outcome, no_names_ask_nothing, one_end, one_outcome,
    pages_follow, statuses_occur,
};
pub use messages::{FAULT, OUT_OF_MEMORY};
pub use streams::{StandardError, StandardOutput};
pub use top::run;
