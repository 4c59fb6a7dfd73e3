//! Outcomes that are written out. They are shown by a contract alone, and its function does nothing.
#![tactic(auto)]

ghost use Rattle.outcome_laws.specs.Figures.{StepsHaveFigures};
ghost use Rattle.outcome_laws.specs.Laws.{OutcomesOccur};
ghost use Rattle.outcome_laws.specs.Library.{LibraryOccurs};

/// A value, a reading that stops, and each way in which a grammar can be refused come about, with these lines.
pub fn outcomes_occur()
    ensures { OutcomesOccur }
{}

/// What the library's contracts speak of comes about: an input is read, all its derivations are listed, and a fold has a value.
pub fn library_occurs()
    ensures { LibraryOccurs }
{}

/// The steps of a run over letters that are read by right recursion, and what they are counted by, in figures.
pub fn steps_have_figures()
    ensures { StepsHaveFigures }
{}
