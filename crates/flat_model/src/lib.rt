//! The flat grammar of a checked one, as it is listed, and when there are too many rules. Nothing here computes for a program.
#![tactic(auto)]
