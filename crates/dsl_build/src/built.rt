//! What is built of a description.

use char_class::CharSet;
use grammar_core::{SymbolId, Written};
use std::marker::Model;
use value_text::Meaning;

/// What reading knows of a lexeme.
#[derive(Clone, Copy, Debug)]
pub struct LexemeRow {
    /// its symbol in the structural grammar
    pub symbol: SymbolId,
    /// its place among the starts of the lexical grammar
    pub start: u32,
    /// the greatest wins, from -1,000,000 to 1,000,000
    pub priority: i32,
    /// whether it is tried only where the structural grammar has a use for it
    pub latm: bool,
}

/// Both grammars of a description, with their tables.
#[derive(Drop)]
pub struct Built {
    /// the structural grammar
    pub g1: Written,
    /// the lexical grammar, whose last symbols are the character sets
    pub l0: Written,
    /// the character sets, each with its symbol in the lexical grammar
    pub sets: Vec<(SymbolId, CharSet)>,
    /// the lexemes, in order of their symbols
    pub lexemes: Vec<LexemeRow>,
    /// the places of the discards among the starts of the lexical grammar, each once
    pub discards: Vec<u32>,
    /// what the rules of the structural grammar and its lexemes mean
    pub meaning: Meaning,
}

impl Model for Built {
    ghost use Rattle.std.specs.Prelude.{map};
    ghost use Rattle.language_model.specs.Building.{Built as BuiltOf};
    ghost use Rattle.value_text.specs.Meaning.{meaning_of};

    ghost Value = { BuiltOf };

    ghost use Rattle.dsl_build.specs.Tables.{row_of};

    ghost view = { λ b. record {
      g1 = b.g1;
      l0 = b.l0;
      sets = b.sets.items;
      lexemes = map row_of b.lexemes.items;
      discards = b.discards.items;
      meaning = meaning_of b.meaning;
    } };
}
