//! The longest match of several starts of a lexical grammar, by states that are made when they are first met.
#![tactic(auto)]

mod begins;
mod classes;
mod kinds;
mod lexer;
mod machine;
mod next;
mod table;
mod terminals;

ghost use Rattle.lexer.specs.Laws.{MatchesAreTheGrammars};

pub use lexer::{LexAnswer, Lexer, UnboundLexer, longest};
use recognizer_model::flat_grammars_are_flat_forms;
pub use table::Lexical;

/// What the flat form of a checked lexical grammar matches is what the grammar matches.
pub fn matches_are_the_grammars()
    ensures { MatchesAreTheGrammars }
{
    flat_grammars_are_flat_forms();
}
