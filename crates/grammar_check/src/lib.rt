//! Whether a written grammar can be used: the refusals of the check, in order.
#![tactic(auto)]

mod checked;
mod cycles;
mod cyclic;
mod laws;
mod layers;
mod links;
mod message;
mod refusal;
mod refusals;
mod shared;
mod shortest;
mod table;

pub use checked::{Checked, check};
pub use grammar_core::{RuleId, SymbolId, Written};
pub use laws::{checked_is_not_refused, refusal_is_one};
pub use message::append_refusal;
pub use refusal::GrammarRefusal;
pub use slot_analysis::child_at;
