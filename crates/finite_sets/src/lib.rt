//! Sets that are decided: searches through lists, sets that grow round by round within a finite universe, and walks. What the
//! functions state of numbers is proved of all types in `proofs/`.
#![tactic(auto)]

ghost use Rattle.finite_sets.specs.Laws.{RoundsSettle, WalksAreDecided, WalksAreShort, HeightsOrCycle};

/// A set that grows round by round within a finite universe settles, in no more rounds than there are members.
pub fn rounds_settle()
    ensures { RoundsSettle }
{}

/// It is decided whether a walk leads from one number to another.
pub fn walks_are_decided()
    ensures { WalksAreDecided }
{}

/// Where there is a walk there is one that is no longer than the universe.
pub fn walks_are_short()
    ensures { WalksAreShort }
{}

/// Where no walk leads back, a height falls by each step.
pub fn heights_or_cycle()
    ensures { HeightsOrCycle }
{}
