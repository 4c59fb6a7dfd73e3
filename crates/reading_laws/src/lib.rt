//! Laws of reading: what is matched is decided, and each text has a reading. Each is shown by a contract alone, and its function
//! does nothing.
#![tactic(auto)]

ghost use Rattle.reading_model.specs.Laws.{AcceptedHaveNoFault, GrammarFaultIsOne};
ghost use Rattle.reading_laws.specs.Applied.{ReadingApplies};
ghost use Rattle.reading_laws.specs.Laws.{MatchesAreDecided, ReadingExists};
ghost use Rattle.reading_laws.specs.Lists.{BuiltAreShort, StartsAreListed, DerivationsAreListed, PiecesLeaveSome, ListingApplies};

/// It is decided whether a start of the lexical grammar matches the characters between two places.
pub fn matches_are_decided()
    ensures { MatchesAreDecided }
{}

/// Each text has a reading, where the structural grammar is checked and its lexemes have names of their own.
pub fn reading_exists()
    ensures { ReadingExists }
{}

/// A digit and a comma have a reading by small grammars.
pub fn reading_applies()
    ensures { ReadingApplies }
{}

/// Grammars that are accepted have no fault.
pub fn accepted_have_no_fault()
    ensures { AcceptedHaveNoFault }
{}

/// Grammars have one fault at most.
pub fn grammar_fault_is_one()
    ensures { GrammarFaultIsOne }
{}

/// The right sides of what is built of a text have at most a thousand parts.
pub fn built_are_short()
    ensures { BuiltAreShort }
{}

/// The derivations of the first start of an accepted grammar have a list, over edges that go forward.
pub fn starts_are_listed()
    ensures { StartsAreListed }
{}

/// The derivations of any pieces have a list, in the declared order.
pub fn derivations_are_listed()
    ensures { DerivationsAreListed }
{}

/// What is read has a chosen derivation wherever it has any.
pub fn pieces_leave_some()
    ensures { PiecesLeaveSome }
{}

/// The derivations of a separated list have a list.
pub fn listing_applies()
    ensures { ListingApplies }
{}
