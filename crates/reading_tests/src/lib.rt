//! Tests of reading: forests, derivations and progress reports. There is nothing else here.
#![tactic(auto)]

#[cfg(test)]
mod chosen;
#[cfg(test)]
mod derivations;
#[cfg(test)]
mod forests;
#[cfg(test)]
mod lengths;
#[cfg(test)]
mod lines;
#[cfg(test)]
mod numbers;
#[cfg(test)]
mod readings;
#[cfg(test)]
mod reports;
