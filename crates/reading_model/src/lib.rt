//! What it means that grammars are accepted, and how a text is read by them. Nothing here computes for a program. Each function
//! is a law, which its contract states.
#![tactic(auto)]

ghost use Rattle.reading_model.specs.Laws.{ReadingIsOne, SuppliedOnce, TokensAreFew};

/// A text is read in one way at most, by any grammars.
pub fn reading_is_one()
    ensures { ReadingIsOne }
{}

/// What is supplied at one character are different ones of the lexemes given.
pub fn supplied_once()
    ensures { SuppliedOnce }
{}

/// There are few tokens.
pub fn tokens_are_few()
    ensures { TokensAreFew }
{}
