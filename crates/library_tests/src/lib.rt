//! Tests of the library's front. There is nothing else here.
#![tactic(auto)]

#[cfg(test)]
mod cases;
#[cfg(test)]
mod cursors;
#[cfg(test)]
mod differences;
#[cfg(test)]
mod first;
#[cfg(test)]
mod lines;
#[cfg(test)]
mod read;
#[cfg(test)]
mod refused;
