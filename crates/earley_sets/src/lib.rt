//! A recognizer with Leo's reduced Earley sets over any flat grammar, which tells exactly the terminals that some continuation takes.
#![tactic(auto)]

mod close;
mod follow;
mod noted;
mod recce;

ghost use Rattle.earley_sets.specs.Laws.{ExpectedAreAcceptable, TreesAreDerivations, TriesAreFew};

pub use recce::{Alike, AlternativeRefusal, Recce, SetView, UnboundRecce};
use recognizer_model::{acceptable_are_flat, flat_grammars_are_flat_forms};

/// Over the flat grammar of a checked one, the expected terminals are those that are acceptable to the checked grammar.
pub fn expected_are_acceptable()
    ensures { ExpectedAreAcceptable }
{
    acceptable_are_flat();
}

/// Over the flat grammar of a checked one, a tree of the start is there exactly where the checked grammar derives the start.
pub fn trees_are_derivations()
    ensures { TreesAreDerivations }
{
    flat_grammars_are_flat_forms();
}

/// Making a set takes at most as many steps as the set has links, and one more for each Leo pair that is noted.
pub fn tries_are_few()
    ensures { TriesAreFew }
{}
