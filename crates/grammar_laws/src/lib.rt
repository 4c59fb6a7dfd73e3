//! Laws of grammars: what contracts end in exists. Each is shown by a contract alone, and its function does nothing.
#![tactic(auto)]

ghost use Rattle.grammar_laws.specs.Applied.{LawsApply};
ghost use Rattle.grammar_laws.specs.Reduced.{ReducedSetsAgree, ReducedSetsApply};
ghost use Rattle.grammar_laws.specs.Laws.{TestsExist, ChecksDecide, DecisionsExist, NamedRulesAreAll, RulesAreCounted, RuleCountIsOne, FlatteningDecides, ItemSetsExist, AcceptableAreDecided, ToldAcceptableAreDecided, TreesAreDecided, ToldTreesAreDecided};

/// Of each slot it is decided whether it is nullable, productive and accessible.
pub fn tests_exist()
    ensures { TestsExist }
{}

/// A grammar passes the check, or it has a refusal: a first fault with its least witness.
pub fn checks_decide()
    ensures { ChecksDecide }
{}

/// What flattening takes from a check exists.
pub fn decisions_exist()
    ensures { DecisionsExist }
{}

/// The rules that flattening lists are all flat rules of the grammar, each once.
pub fn named_rules_are_all()
    ensures { NamedRulesAreAll }
{}

/// There is a number of flat rules.
pub fn rules_are_counted()
    ensures { RulesAreCounted }
{}

/// There is no other number of flat rules.
pub fn rule_count_is_one()
    ensures { RuleCountIsOne }
{}

/// A checked grammar is flattened, or it would have too many flat rules.
pub fn flattening_decides()
    ensures { FlatteningDecides }
{}

/// Each place has a list of its items, over edges that go forward.
pub fn item_sets_exist()
    ensures { ItemSetsExist }
{}

/// The reduced and the full sets keep the same waiting items, and the expanded sets are the full ones.
pub fn reduced_sets_agree()
    ensures { ReducedSetsAgree }
{}

/// The law of reduced sets where a completion leads on through two pairs, with an item that is hidden.
pub fn reduced_sets_apply()
    ensures { ReducedSetsApply }
{}

/// It is decided whether a terminal is acceptable at a place of a checked grammar, over the edges of a list.
pub fn acceptable_are_decided()
    ensures { AcceptableAreDecided }
{}

/// The same over the edges that a test tells.
pub fn told_acceptable_are_decided()
    ensures { ToldAcceptableAreDecided }
{}

/// It is decided whether a tree of a slot spans two places, over the edges of a list.
pub fn trees_are_decided()
    ensures { TreesAreDecided }
{}

/// The same over the edges that a test tells, as those of characters.
pub fn told_trees_are_decided()
    ensures { ToldTreesAreDecided }
{}

/// The laws at ambiguous sums, at a rule that is its own part, and at a grammar of lists.
pub fn laws_apply()
    ensures { LawsApply }
{}
