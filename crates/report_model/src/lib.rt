//! What a progress report is. Nothing here computes for a program.
#![tactic(auto)]
