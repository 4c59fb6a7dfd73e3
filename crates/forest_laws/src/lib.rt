//! Laws of the shared packed forest: what its nodes stand for. Each is shown by a contract alone, and its function does nothing.
#![tactic(auto)]

ghost use Rattle.forest_laws.specs.Applied.{ForestsApply};
ghost use Rattle.forest_laws.specs.Few.{StepsAreFew};
ghost use Rattle.forest_laws.specs.Guide.{ChoicesPerStep, RowsLead};
ghost use Rattle.forest_laws.specs.Laws.{ForestsExist, ForestsHaveLists, ListsAreOne};
ghost use Rattle.forest_laws.specs.Leads.{NodesLead};
ghost use Rattle.forest_laws.specs.Skips.{WalksSkip};
ghost use Rattle.forest_laws.specs.Taken.{PrefixesAreTaken};
ghost use Rattle.forest_laws.specs.Walked.{ForestsAreWalked};
ghost use Rattle.forest_laws.specs.Written.{StepsAreWritten};

/// Each reading with a derivation has a forest.
pub fn forests_exist()
    ensures { ForestsExist }
{}

/// The nodes of a forest stand for lists: of each node all child lists of its key that are of allowed rules, of each cause all such
/// trees, and of the whole the chosen derivations of the reading, in the declared order.
pub fn forests_have_lists()
    ensures { ForestsHaveLists }
{}

/// The nodes of a forest stand for nothing else.
pub fn lists_are_one()
    ensures { ListsAreOne }
{}

/// The laws at a reading with two derivations.
pub fn forests_apply()
    ensures { ForestsApply }
{}

/// The root's goals stand for the steps of the flat derivations that the nodes stand for, in order; and what stands before a walk, which goes on from its last
/// choice that has a later option, changes by nothing but the steps that it gives.
pub fn forests_are_walked()
    ensures { ForestsAreWalked }
{}

/// A walk that takes a later option of a goal at once leaves out what the earlier options stand for, and nothing else.
pub fn walks_skip()
    ensures { WalksSkip }
{}

/// Of a node's alternatives, the one that begins where the last child does stands for the children.
pub fn nodes_lead()
    ensures { NodesLead }
{}

/// Of a derivation's steps, the row of a child's last step tells where the child begins, and where those before it end.
pub fn rows_lead()
    ensures { RowsLead }
{}

/// A derivation has at most seven choices for each of its steps.
pub fn choices_per_step()
    ensures { ChoicesPerStep }
{}

/// The steps of a flat derivation are written, one after another, as the steps of what it stands for.
pub fn steps_are_written()
    ensures { StepsAreWritten }
{}

/// A flat derivation has few steps: at most one more than the choices of the derivation that it stands for.
pub fn steps_are_few()
    ensures { StepsAreFew }
{}

/// What a walk has given so far are the first derivations of the list, and with nothing left it is the whole list.
pub fn prefixes_are_taken()
    ensures { PrefixesAreTaken }
{}
