//! Flat forms of one written grammar differ in the numbers of their symbols and rules alone, so what is counted of a reading does not go by
//! them. It is shown by contracts alone, and the functions do nothing.
#![tactic(auto)]

ghost use Rattle.renaming_laws.specs.Laws.{NumbersOfAnyForm, CountsOfAnyForm};

/// The four numbers of a reading are those of each flat form of the grammar.
pub fn numbers_of_any_form()
    ensures { NumbersOfAnyForm }
{}

/// So are the counts that bound its steps: the links, the Leo pairs, and the hidden items of either kind.
pub fn counts_of_any_form()
    ensures { CountsOfAnyForm }
{}
