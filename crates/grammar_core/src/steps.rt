//! Steps of derivations, and spans of tokens.
use crate::{RuleId, SymbolId};

/// A step of a derivation, which is told by its steps, children before their rule. Places count tokens.
#[derive(Clone, Copy, Debug, PartialEq, Eq)]
pub enum TreeStep {
    /// a token
    Token {
        symbol: SymbolId,
        from: u32,
        to: u32,
    },
    /// a symbol that spans nothing
    Nulled {
        symbol: SymbolId,
        at: u32,
    },
    /// a rule, whose children are the newest so many
    Rule {
        rule: RuleId,
        children: u32,
        from: u32,
        to: u32,
    },
}

/// Where a token lies in the text, in characters.
#[derive(Clone, Copy, Debug, PartialEq, Eq)]
pub struct Span {
    pub start: u32,
    pub length: u32,
}
