//! Grammars as programs hold them: symbols with names, rules and starts, each under the number of its place.
#![tactic(auto)]

mod edges;
mod flat;
mod latest;
mod long;
mod refusal;
mod rule;
mod steps;
mod written;

pub use edges::{Edge, EdgeRefusal, TokenEdges};
pub use flat::{Flat, FlatParts};
pub use grammar_model::{Assoc, RuleId, SymbolId};
pub use recognizer_model::{FlatRule, FlatSource, FlatSymbol, Item};
pub use refusal::CoreRefusal;
pub use rule::{Rule, SeqRule, WrittenRule};
pub use steps::{Span, TreeStep};
pub use written::Written;
