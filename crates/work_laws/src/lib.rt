//! The law of the job that parses a grammar and an input of its own. It is shown by a contract alone, and its function does nothing.
#![tactic(auto)]

ghost use Rattle.work_laws.specs.Laws.{WorkHasOne};

/// The job's own grammar is accepted, its own input is read to its end, and there is exactly one derivation, whatever the ranking.
pub fn work_has_one()
    ensures { WorkHasOne }
{}
