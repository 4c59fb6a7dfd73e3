//! The symbols and rules of flat grammars.
use grammar_model::{RuleId, SymbolId};
use std::marker::Model;

/// What a symbol of a flat grammar stands for.
#[derive(Clone, Copy, Debug, PartialEq, Eq)]
pub enum FlatSymbol {
    /// A terminal of the written grammar.
    Terminal(SymbolId),
    /// A symbol of left sides with a least level.
    Slot { symbol: SymbolId, level: u32 },
    /// The items of a sequence rule, with the separators between them.
    Sequence(RuleId),
    /// The top of a start, by the start's place.
    Top(u32),
}

/// What a flat rule comes from: a written rule, or a start by its place.
#[derive(Clone, Copy, Debug, PartialEq, Eq)]
pub enum FlatSource {
    Written(RuleId),
    Top(u32),
}

/// A rule over flat symbols, which are numbered by their places.
#[derive(Debug, Drop)]
pub struct FlatRule {
    pub lhs: u32,
    pub rhs: Vec<u32>,
    pub source: FlatSource,
}

impl Model for FlatRule {
    ghost use Rattle.recognizer_model.specs.FlatRule.{FlatRule};

    ghost Value = { FlatRule };

    ghost view = { λ r. record { lhs = r.lhs; rhs = r.rhs.items; source = r.source } };
}
