//! A lexical grammar.
use char_class::CharSet;
use grammar_core::{Flat, SymbolId};
use std::marker::Model;

/// The flat form of a lexical grammar, and the character sets of its terminals.
#[derive(Drop)]
pub struct Lexical<'g> {
    pub flat: &'g Flat,
    pub sets: &'g [(SymbolId, CharSet)],
}

impl<'g> Model for Lexical<'g> {
    ghost use Rattle.lexer.specs.Lexical.{LexicalForm};

    ghost Value = { LexicalForm };

    ghost view = { λ l. record { flat = l.flat.now; sets = l.sets.now } };
}
