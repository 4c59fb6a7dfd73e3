//! Tests of the jobs that stand beside `run`: pages of a list, and texts with lexemes that are supplied. There is nothing else here.
#![tactic(auto)]

#[cfg(test)]
mod pages;
#[cfg(test)]
mod runs;
#[cfg(test)]
mod slipping;
#[cfg(test)]
mod slips;
