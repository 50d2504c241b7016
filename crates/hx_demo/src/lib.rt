//! Positions that a seed draws, for whoever has no position at hand. The same seed draws the same positions each time.
#![tactic(auto)]

mod draws;
mod laws;

pub use draws::Draw;
pub use laws::one_count;
