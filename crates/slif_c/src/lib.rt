//! The library for programs in C, and in languages that call C. `extras/c/slif.h` declares it.
#![tactic(auto)]

mod expecting;
mod grammars;
mod parses;
mod scans;
