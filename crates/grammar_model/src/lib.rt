//! Definitions of grammars, derivations, their order and their values; and the types that stand for these in programs.
//! Nothing here computes for a program. Each function below is a law, which its contract states.
#![tactic(auto)]

ghost use Rattle.grammar_model.specs.All.{DerivationsAreOrdered, ListIsUnique};
ghost use Rattle.grammar_model.specs.Chosen.{ChosenListIsUnique};
ghost use Rattle.grammar_model.specs.Simple.{ListsAllOfSimple};
ghost use Rattle.grammar_model.specs.Characters.{CharactersHaveOneList};
ghost use Rattle.grammar_model.specs.Steps.{StepsMakeTheTree, StepsTellTheTree};
ghost use Rattle.grammar_model.specs.Values.{StepsTellTheValue};
ghost use Rattle.grammar_model.specs.Cycles.{HeightsExcludeCycles};
ghost use Rattle.grammar_model.specs.Listable.{ListExists};

mod id;
mod limits;

pub use id::{RuleId, SymbolId};
pub use limits::{
    LAST_PLACE, LONGEST_CURSOR, LONGEST_EDGE, LONGEST_GIVEN, LONGEST_GRAMMAR, LONGEST_INPUT,
    MOST_ENTRIES, MOST_FLAT_RULES,
};

/// Which occurrence of the left side may have the rule's own level again.
#[derive(Clone, Copy, Debug, PartialEq, Eq)]
pub enum Assoc {
    Left,
    Right,
    Group,
}

/// A terminal that spans from one place to a later one. Places count tokens.
#[derive(Clone, Copy, Debug, PartialEq, Eq)]
pub struct Edge {
    pub symbol: u32,
    pub from: u32,
    pub to: u32,
}

/// Whether ranks count: in the order of derivations, and in which of them are given.
#[derive(Clone, Copy, Debug, PartialEq, Eq)]
pub enum Ranking {
    /// They do not count.
    None,
    /// They count in the order.
    Rule,
    /// They count as under `Rule`, and only derivations are given whose nodes all have a rule of the best rank in their place.
    High,
}

/// What is told of a derivation: the value that its actions make, or the tree itself.
#[derive(Clone, Copy, Debug, PartialEq, Eq)]
pub enum Show {
    Array,
    Tree,
}

/// An item of an array descriptor, as in `action => [name,values]`.
#[derive(Clone, Copy, Debug, PartialEq, Eq)]
pub enum DescItem {
    Name,
    Symbol,
    Start,
    Length,
    G1Start,
    G1Length,
    Values,
}

/// Of two different derivations of one slot and span, exactly one is before the other.
pub fn derivations_are_ordered()
    ensures { DerivationsAreOrdered }
{}

/// There is at most one list of all derivations of a slot over a span.
pub fn list_is_unique()
    ensures { ListIsUnique }
{}

/// There is at most one list of the chosen derivations of a slot over a span.
pub fn chosen_list_is_unique()
    ensures { ChosenListIsUnique }
{}

/// The plain lister lists all derivations of a simple grammar.
pub fn simple_lister_lists_all()
    ensures { ListsAllOfSimple }
{}

/// An input of single characters has one list of derivations over a simple grammar that has a start.
pub fn characters_have_one_list()
    ensures { CharactersHaveOneList }
{}

/// The steps of a tree put it on top of the stack that they work on.
pub fn steps_make_the_tree()
    ensures { StepsMakeTheTree }
{}

/// No two trees have the same steps.
pub fn steps_tell_the_tree()
    ensures { StepsTellTheTree }
{}

/// The steps of a tree, told to a list of values, leave the tree's value on top.
pub fn steps_tell_the_value()
    ensures { StepsTellTheValue }
{}

/// Where heights fall along each step there is no cycle.
pub fn heights_exclude_cycles()
    ensures { HeightsExcludeCycles }
{}

/// A list of all derivations exists.
pub fn list_exists()
    ensures { ListExists }
{}
