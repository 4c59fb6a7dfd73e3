//! What a cursor is: a text that tells a derivation among those of one reading; and how a list goes on after it. Nothing here computes for a
//! program. Each function is a law, which its contract states.
#![tactic(auto)]

ghost use Rattle.cursor_model.specs.Laws.{CursorsApply, CursorsDiffer, CursorsTellTrees, DerivationsAreLaid, NumeralsAreDecimals, PlacesAreDecided, PlacesFollow, PlacesGoOn, RestIsOne, TextsSpellOne};

/// A derivation over edges of length one lies from its one place to the other.
pub fn derivations_are_laid()
    ensures { DerivationsAreLaid }
{}

/// Trees that lie from one place on are told by their cursors.
pub fn cursors_tell_trees()
    ensures { CursorsTellTrees }
{}

/// Different derivations of one reading have different cursors.
pub fn cursors_differ()
    ensures { CursorsDiffer }
{}

/// A text spells one tree at most.
pub fn texts_spell_one()
    ensures { TextsSpellOne }
{}

/// A text that spells a rule with a token and a nulled leaf.
pub fn cursors_apply()
    ensures { CursorsApply }
{}

/// What is left after a place is one list.
pub fn rest_is_one()
    ensures { RestIsOne }
{}

/// What was given up to a place and what is left after it are the whole list.
pub fn places_go_on()
    ensures { PlacesGoOn }
{}

/// Going on from a place twice is going on once.
pub fn places_follow()
    ensures { PlacesFollow }
{}

/// A text names a place of a list of derivations, or none.
pub fn places_are_decided()
    ensures { PlacesAreDecided }
{}

/// A numeral of 32 bits is what a program writes for the number.
pub fn numerals_are_decimals()
    ensures { NumeralsAreDecimals }
{}
