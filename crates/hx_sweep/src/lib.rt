//! A full search, and the tree that it gives, by moves alone. It solves the small positions that no worker solved.
#![tactic(auto)]

mod nodes;
mod small_positions;
mod sweeps;
mod winners;

pub use small_positions::is_small;
pub use sweeps::sweep;
pub use winners::winner;
