//! What follows from the definitions alone.
ghost use Rattle.grammar_check.specs.Laws.{CheckedIsNotRefused, RefusalIsOne};

/// A grammar that passes the check has no refusal.
pub fn checked_is_not_refused()
    ensures { CheckedIsNotRefused }
{}

/// A grammar has at most one refusal.
pub fn refusal_is_one()
    ensures { RefusalIsOne }
{}
