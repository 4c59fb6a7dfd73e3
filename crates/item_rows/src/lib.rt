//! Sets of items, each a row in one order, so that the items that wait for a symbol (their postdot symbol, in Libmarpa's word) stand
//! together, and an item is found by binary search. Also the rules of each symbol and the symbol of each terminal, looked up.
#![tactic(auto)]

mod dotted;
mod heads;
mod order;
mod packed;
mod places;
mod rows;

pub use heads::{Heads, Rules, list_heads, rules_of, symbol_of};
pub use packed::Row;
pub use rows::{Rows, UnboundRows};
