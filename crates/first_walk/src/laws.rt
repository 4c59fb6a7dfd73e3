//! The law of the walk.
ghost use Rattle.first_walk.specs.Walk.{WalksAreFirst};

/// A walk through a forest from its last goal to the first, by first options, writes the steps of the first derivation, and tells
/// whether it is the only one.
pub fn walks_are_first()
    ensures { WalksAreFirst }
{}
