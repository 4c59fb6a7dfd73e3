//! Tests over forests: cursors of derivations, glades, and jumps. There is nothing else here.
#![tactic(auto)]

#[cfg(test)]
mod ambiguities;
#[cfg(test)]
mod cursors;
#[cfg(test)]
mod jumps;
#[cfg(test)]
mod readings;
