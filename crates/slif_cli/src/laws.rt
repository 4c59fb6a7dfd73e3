//! Laws of what a run means. Each is shown by a contract alone, and its function does nothing.
ghost use Rattle.run_model.specs.Laws.{HasOutcome, HasOneOutcome, HasOneEnd, HasEnd, StatusesOccur, GoingOnIsWhole, NoNamesAskNothing, PagesFollow};

/// Whatever the words, the grammar and the input are, there is an outcome.
pub fn has_outcome()
    ensures { HasOutcome }
{}

/// There is one outcome at most.
pub fn one_outcome()
    ensures { HasOneOutcome }
{}

/// Where the outside tells all that the words need, a run may have one outcome at most.
pub fn one_end()
    ensures { HasOneEnd }
{}

/// Where the outside holds the files that the words need, a run has an outcome.
pub fn has_end()
    ensures { HasEnd }
{}

/// Each status from 0 to 3 comes up.
pub fn statuses_occur()
    ensures { StatusesOccur }
{}

/// The values up to a place, and those that job `more` tells from that place on, are all values.
pub fn going_on_is_whole()
    ensures { GoingOnIsWhole }
{}

/// Pages of job `more`, each from the place that the one before it told, follow one another.
pub fn pages_follow()
    ensures { PagesFollow }
{}

/// Where no names are given, grammars are accepted and refused as for jobs without them.
pub fn no_names_ask_nothing()
    ensures { NoNamesAskNothing }
{}
