//! What rows of items have of their own, held by shapes, which many rows have alike, and origins.
#![tactic(auto)]

mod guess;
mod shapes;
mod slots;

pub use shapes::{KernelRef, Kernels};
pub use slots::{ORIGINS, slot_of};
