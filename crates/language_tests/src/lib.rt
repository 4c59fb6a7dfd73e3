//! Tests of the outside, of character classes and texts of values, and of the grammar language: its tokens, statements, faults, and what is built and prepared.
//! There is nothing else here.
#![tactic(auto)]

#[cfg(test)]
mod building;
#[cfg(test)]
mod classes;
#[cfg(test)]
mod examples;
#[cfg(test)]
mod limits;
#[cfg(test)]
mod outside;
#[cfg(test)]
mod preparing;
#[cfg(test)]
mod statements;
#[cfg(test)]
mod texts;
#[cfg(test)]
mod token_rows;
#[cfg(test)]
mod values;
#[cfg(test)]
mod vast_levels;
