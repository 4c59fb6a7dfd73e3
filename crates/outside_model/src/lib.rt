//! What is told of the bytes and the files of the outside, and of a text's lines. Nothing here computes for a program.
#![tactic(auto)]
