//! Tests of runs that are refused, and of runs whose outside fails. There is nothing else here.
#![tactic(auto)]

#[cfg(test)]
mod devices;
#[cfg(test)]
mod faults;
#[cfg(test)]
mod large;
#[cfg(test)]
mod refused;
#[cfg(test)]
mod runs;
#[cfg(test)]
mod suppliers;
#[cfg(test)]
mod tellers;
