//! Scripts of Libmarpa's calls: a grammar is built line by line, and then read by.
#![tactic(auto)]

mod answers;
mod building;
mod commands;
mod lines;
mod names;
mod number;
mod playing;
mod precomputing;
mod reading;
mod refusal;
mod reports;
mod scripts;
mod trees;

pub use answers::end_line;
pub use building::answer_building;
pub use commands::{Command, command_by};
pub use lines::{are_words, first_line, list_words};
pub use playing::{Ready, answer_line, build_grammar};
pub use precomputing::answer_precompute;
pub use reading::answer_reading;
pub use refusal::ScriptRefusal;
pub use reports::play_report;
pub use scripts::play_script;
pub use trees::play_trees;
