//! Tests of scripts and of a scanner's calls. There is nothing else here.
#![tactic(auto)]

#[cfg(test)]
mod building;
#[cfg(test)]
mod calls;
#[cfg(test)]
mod scripts;
