//! Tests of whole runs that end well and of the words of the command line. There is nothing else here.
#![tactic(auto)]

#[cfg(test)]
mod ambiguities;
#[cfg(test)]
mod examples;
#[cfg(test)]
mod runs;
#[cfg(test)]
mod told;
#[cfg(test)]
mod words;
