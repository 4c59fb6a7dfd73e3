//! Parsing by a grammar of the grammar language: a grammar from its text, an input read by it, its derivations one after another, and
//! values made of them by a semantics of the caller's own. It stands for all that lies below; nothing else is needed.
#![tactic(auto)]

mod derivations;
mod error;
mod first;
mod forest;
mod grammar;
mod lines;
mod places;
mod reading;
mod rules;
mod supplying;

pub use derivations::Derivations;
pub use error::ParseError;
pub use first::{Derived, First};
pub use forest::Forest;
pub use glades::{Glade, Shape, Starts};
pub use grammar::Grammar;
pub use grammar_core::{RuleId, Span, SymbolId, TreeStep};
pub use grammar_model::{Ranking, Show};
pub use reading::Reading;
pub use slippers::{ListSupplier, Supplier};
pub use std::alloc::AllocError as NoMemory;
pub use text_reading::Place;
pub use tree_fold::{FoldError, Semantics, Token};
