//! The first fault of the statements of a grammar text, and the tables of names and uses that their grammars are built from.
#![tactic(auto)]

mod adverbs;
mod checks;
mod descriptor;
mod faults;
mod found;
mod names;
mod parts;
mod quotes;
mod refusal;
mod seconds;
mod symbols;
mod telling;
mod uses;
mod values;

pub use adverbs::value_of;
pub use descriptor::read_action;
pub use faults::{Named, check, check_named, named_of};
pub use names::Names;
pub use parts::parts_of;
pub use quotes::{between_quotes, is_quote, modifier_len};
pub use refusal::BuildRefusal;
pub use symbols::{is_bracket, is_left, is_right};
pub use uses::{Role, Use, Which, first_asked, names_of, text_of, uses_of};
