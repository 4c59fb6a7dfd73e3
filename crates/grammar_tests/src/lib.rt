//! Tests of grammars, of the check of them, of their flat rules and of Earley sets. There is nothing else here.
#![tactic(auto)]

#[cfg(test)]
mod checks;
#[cfg(test)]
mod flattened;
#[cfg(test)]
mod grammars;
#[cfg(test)]
mod lengths;
#[cfg(test)]
mod leo;
#[cfg(test)]
mod lexemes;
#[cfg(test)]
mod readings;
#[cfg(test)]
mod sets;
#[cfg(test)]
mod written;
