//! How a run ends that searches: who wins by the tree that it came to, or what is told where it came to none, and its
//! exit status with the refusals that were counted.
#![tactic(auto)]

mod finishes;
mod wanting;
mod winners;

pub use finishes::{Finding, Finish};
pub use wanting::{Wanting, left_open, write_wanting};
pub use winners::root_winner;
