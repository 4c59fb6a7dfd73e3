//! Trees drawn, and the rules of a grammar told by its tree.
#![tactic(auto)]

mod boxes;
mod outlines;
mod places;
mod puts;
mod rules;
mod svg;

pub use rules::push_rules;
pub use svg::push_svg;
