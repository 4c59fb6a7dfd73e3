//! Tests of tellers, of texts of values that are read back, and of trees as text. There is nothing else here.
#![tactic(auto)]

#[cfg(test)]
mod pictures;
#[cfg(test)]
mod plays;
#[cfg(test)]
mod read_values;
#[cfg(test)]
mod rules;
#[cfg(test)]
mod tellers;
#[cfg(test)]
mod trees;
