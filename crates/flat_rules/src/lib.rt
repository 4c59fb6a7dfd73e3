//! Flat rules: levels, sequences and nullable symbols as plain rules. The flat grammar of a checked one, and the theorem that it is
//! its flat grammar.
#![tactic(auto)]

mod flattening;
mod lefts;
mod numbering;
mod pushing;
mod refusal;

ghost use Rattle.flat_model.specs.Flatten.{FlatGrammarsExist};
ghost use Rattle.flat_model.specs.Lists.{ListsHaveFlatGrammar};

pub use flattening::flatten;
pub use refusal::FlatRefusal;

/// A checked grammar has the flat grammar that is listed for it: its symbols, rules, marks and tops are those of the written one, and
/// all that is always so of a flat grammar is so of it.
pub fn flat_grammars_exist()
    ensures { FlatGrammarsExist }
{}

/// A small grammar with a star, a separated list, levels and a start that is nullable is checked, and its flat grammar is the one
/// that is written out by hand.
pub fn lists_have_flat_grammar()
    ensures { ListsHaveFlatGrammar }
{}
