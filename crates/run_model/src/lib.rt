//! What a run of the program means: its outcome, and what it does to the outside. Nothing here computes.
#![tactic(auto)]
