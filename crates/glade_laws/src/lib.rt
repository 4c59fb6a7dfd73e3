//! Laws of glades over forests: what the groups of a forest tell is the report of its reading. Each is shown by a contract alone, and its function does nothing.
#![tactic(auto)]

ghost use Rattle.glade_laws.specs.Applied.{GladesApply};
ghost use Rattle.glade_laws.specs.Laws.{GladesAreByGroups, ReportsExist, UsedHaveLists};

/// One glade of each group with two shapes, told by the walks from its first two nodes, in the order of glades, is the report.
pub fn glades_are_by_groups()
    ensures { GladesAreByGroups }
{}

/// The trees of each slot over a span that a derivation uses have a list, so the definition's laws apply to each checked grammar.
pub fn used_have_lists()
    ensures { UsedHaveLists }
{}

/// Each reading with a derivation has a report.
pub fn reports_exist()
    ensures { ReportsExist }
{}

/// The laws at a reading with two derivations.
pub fn glades_apply()
    ensures { GladesApply }
{}
