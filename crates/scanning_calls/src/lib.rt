//! Libmarpa's calls on one value: a grammar is made call by call, and then read by, token by token.
#![tactic(auto)]

mod building;
mod kept;
mod reading;
mod refusal;
mod scanning;
mod session;

pub use kept::Kept;
pub use refusal::ScanRefusal;
pub use scanning::Scanning;
