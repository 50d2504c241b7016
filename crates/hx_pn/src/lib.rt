//! Proof numbers and disproof numbers, and the thresholds that a depth-first search by them gives its children.
#![tactic(auto)]

mod descents;
mod proof_numbers;

pub use descents::thresholds;
pub use proof_numbers::{INF, Numbers, UNSEEN, combine, focus, worse};
