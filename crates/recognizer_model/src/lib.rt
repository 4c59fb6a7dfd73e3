//! Definitions of flat grammars, their items and nodes, and laws of them; and the types that stand for these in programs.
#![tactic(auto)]

mod flat;
mod thread;

pub use flat::{FlatRule, FlatSource, FlatSymbol};
pub use thread::{Label, Thread};

/// A rule, how many of its parts were found, and the place where they begin.
#[derive(Clone, Copy, PartialEq, Eq, Hash)]
pub struct Item {
    pub rule: u32,
    pub dot: u32,
    pub origin: u32,
}

/// The first `dot` parts of a rule over a span.
#[derive(Clone, Copy, PartialEq, Eq, Hash)]
pub struct NodeKey {
    pub rule: u32,
    pub dot: u32,
    pub origin: u32,
    pub end: u32,
}

/// A set, by its place, and a symbol.
#[derive(Clone, Copy, PartialEq, Eq, Hash)]
pub struct Pair {
    pub set: u32,
    pub symbol: u32,
}

/// A line of a progress report: an item in terms of written rules.
#[derive(Clone, Copy, PartialEq, Eq, PartialOrd, Ord)]
pub struct ReportLine {
    pub rule: u32,
    pub dot: u32,
    pub origin: u32,
}

ghost use Rattle.recognizer_model.specs.FlatForm.{FlatGrammarsAreFlatForms, AcceptableAreFlat, ListsExist};
ghost use Rattle.recognizer_model.specs.ChosenLaws.{ChosenAreAllowed, AllowedLeaveSome, ChosenLeaveSome, ChosenListsExist};
ghost use Rattle.recognizer_model.specs.Laws.{EarleyLawsHold};
ghost use Rattle.recognizer_model.specs.Once.{KeptInOneStep, KnownByLists};
ghost use Rattle.recognizer_model.specs.Threads.{ThreadLawsHold};
ghost use Rattle.recognizer_model.specs.Below.{HiddenStandBelow};

/// The theorems on item sets, reduced sets, acceptable terminals and used nodes.
pub fn earley_laws()
    ensures { EarleyLawsHold }
{}

/// What flat derivations stand for are the written grammar's derivations, one to one and in the declared order.
pub fn flat_grammars_are_flat_forms()
    ensures { FlatGrammarsAreFlatForms }
{}

/// A terminal of the written grammar is acceptable exactly where its flat symbol is.
pub fn acceptable_are_flat()
    ensures { AcceptableAreFlat }
{}

/// The derivations of a checked grammar have a list, whatever the edges.
pub fn lists_exist()
    ensures { ListsExist }
{}

/// A flat derivation is of the rules that a ranking allows exactly where the ranking chooses what it stands for.
pub fn chosen_are_allowed()
    ensures { ChosenAreAllowed }
{}

/// Whatever a flat grammar derives it derives by rules that the ranking allows.
pub fn allowed_leave_some()
    ensures { AllowedLeaveSome }
{}

/// Where a checked grammar has a derivation, it has a chosen one.
pub fn chosen_leave_some()
    ensures { ChosenLeaveSome }
{}

/// The chosen derivations of a checked grammar have a list, whatever the edges.
pub fn chosen_lists_exist()
    ensures { ChosenListsExist }
{}

/// The reduced set of a place follows in one step from the full sets.
pub fn reduced_in_one_step()
    ensures { KeptInOneStep }
{}

/// Where the items that wait for a symbol are listed, it is known whether there is a Leo item.
pub fn leo_by_lists()
    ensures { KnownByLists }
{}

/// A used node that is hidden stands below one that is kept and used with the same end.
pub fn hidden_stand_below()
    ensures { HiddenStandBelow }
{}

/// What rows of threads along a text tell of its starts.
pub fn thread_laws()
    ensures { ThreadLawsHold }
{}
