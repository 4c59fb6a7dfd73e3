//! Progress reports: where a recognizer stands, in terms of the written grammar.
#![tactic(auto)]

mod lines;
mod refusal;

pub use lines::report;
pub use recognizer_model::ReportLine;
pub use refusal::ProgressRefusal;
