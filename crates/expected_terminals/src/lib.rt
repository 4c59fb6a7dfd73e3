//! The terminals that a row waits for, its postdot terminals, listed once for rows of one shape.
#![tactic(auto)]

mod expected;
mod marks;

pub use expected::{
    Expected, copy_of, expect_row, forget, has_terminal, list_number, new_expected, place_alike,
    terminals,
};
