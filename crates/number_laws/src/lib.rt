//! Laws of the numbers of a reading, and of the counts that bound its steps. Each is shown by a contract alone, and its function does nothing.
#![tactic(auto)]

ghost use Rattle.number_laws.specs.Applied.{NumbersApply};
ghost use Rattle.number_laws.specs.Counts.{LinksAreCounted, CountsExist, CountsAreOne, CountsBoundSteps};
ghost use Rattle.number_laws.specs.Laws.{NumbersExist, NumbersAreOne};
ghost use Rattle.number_laws.specs.RightRecursion.{RightRecursionCounts, RightRecursionRow};

/// Each reading by accepted grammars has its numbers, also one with no derivation.
pub fn numbers_exist()
    ensures { NumbersExist }
{}

/// A reading has no other numbers.
pub fn numbers_are_one()
    ensures { NumbersAreOne }
{}

/// The numbers of one token that is read by a chain of rules.
pub fn numbers_apply()
    ensures { NumbersApply }
{}

/// The links and the Leo pairs of the sets have counts, over edges of any length.
pub fn links_are_counted()
    ensures { LinksAreCounted }
{}

/// Each reading by accepted grammars has the counts that bound its steps.
pub fn counts_exist()
    ensures { CountsExist }
{}

/// A reading has no other counts.
pub fn counts_are_one()
    ensures { CountsAreOne }
{}

/// The steps of a reading and of so many looks after it are at most the sum of its counts and the looks.
pub fn counts_bound_steps()
    ensures { CountsBoundSteps }
{}

/// By right recursion each token has five links, and each place one Leo pair.
pub fn right_recursion_counts()
    ensures { RightRecursionCounts }
{}

/// Of 10,000 tokens read by right recursion, the links and the Leo pairs are 60,001.
pub fn right_recursion_row()
    ensures { RightRecursionRow }
{}
