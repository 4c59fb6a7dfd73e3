//! What a caller makes of a derivation.

use grammar_core::{RuleId, SymbolId};
use std::alloc::{AllocError, AllocFailed};
use std::error::Error;
use std::fmt;

/// A token: its symbol with that symbol's name, its text, and where it begins and how long it is, in characters.
#[derive(Clone, Copy, Debug)]
pub struct Token<'t> {
    pub symbol: SymbolId,
    pub name: &'t str,
    pub text: &'t str,
    pub start: u32,
    pub length: u32,
}

/// What is made of the parts of a derivation. `*_gives` say what may come of a part, a value or an error, and to which state the
/// semantics goes from which: each is all that a proof knows of a call. Who proves nothing of a semantics lets them hold of everything.
pub trait Semantics {
    ghost use Rattle.std.specs.Prelude.{ℕ, List, Result};
    ghost use Rattle.grammar_model.specs.Values.{Token as TokenOf};
    ghost use Rattle.tree_fold.specs.Values.{token_told};

    type Value: Drop;

    type Error: Drop;

    ghost token_gives: { (before after : Self) (symbol : ℕ) (name : List ℕ) (token : TokenOf) → Result Self.Value Self.Error → Type 0 };

    ghost nulled_gives: { (before after : Self) (symbol : ℕ) (name : List ℕ) → Result Self.Value Self.Error → Type 0 };

    ghost rule_gives: { (before after : Self) (rule : ℕ) (name : List ℕ) (children : List Self.Value) → Result Self.Value Self.Error → Type 0 };

    /// Of a token.
    fn token(&mut self, token: Token<'_>) -> Result<Self::Value, Self::Error>
        ensures { token_gives self.old self.new token.entry.symbol token.entry.name.now
            (token_told token.entry) result };

    /// Of a symbol that spans nothing.
    fn nulled(&mut self, symbol: SymbolId, name: &str) -> Result<Self::Value, Self::Error>
        ensures { nulled_gives self.old self.new symbol name.now result };

    /// Of a rule, with the name of its left side, and the values of its children, from the left.
    fn rule(
        &mut self,
        rule: RuleId,
        name: &str,
        children: Vec<Self::Value>,
    ) -> Result<Self::Value, Self::Error>
        ensures { rule_gives self.old self.new rule name.now children.items result };
}

/// Why a derivation has no value.
#[derive(Debug, Drop)]
pub enum FoldError<E> {
    /// The semantics told this error.
    Semantics(E),
    NoMemory,
}

impl<E: fmt::Display> fmt::Display for FoldError<E> {
    ghost use Rattle.tree_fold.specs.Shown.{fold_text};

    ghost output = { fold_text E.output };

    fn fmt<W: fmt::Write>(&self, f: &mut fmt::Formatter<W>) -> fmt::Result {
        match self {
            FoldError::Semantics(error) => write!(f, "{error}"),
            FoldError::NoMemory => write!(f, "out of memory"),
        }
    }
}

impl<E: Error> Error for FoldError<E> {}

impl<E> From<AllocError> for FoldError<E> {
    ghost use Rattle.std.specs.Prelude.{◌≡◌};
    ghost use Rattle.tree_fold.specs.declared.semantics.FoldError.TheVariants.{NoMemory};

    ghost from_gives = { λ _ error. error ≡ NoMemory };

    fn from(_error: AllocError) -> FoldError<E> {
        FoldError::NoMemory
    }
}

impl<T: Drop, E> From<AllocFailed<T>> for FoldError<E> {
    ghost use Rattle.std.specs.Prelude.{◌≡◌};
    ghost use Rattle.tree_fold.specs.declared.semantics.FoldError.TheVariants.{NoMemory};

    ghost from_gives = { λ _ error. error ≡ NoMemory };

    fn from(_error: AllocFailed<T>) -> FoldError<E> {
        FoldError::NoMemory
    }
}
