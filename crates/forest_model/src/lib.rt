//! What the shared packed forest of a reading is, and the list of its derivations. Nothing here computes for a program.
#![tactic(auto)]
