//! Openings: positions after Black's first move, with White to move.
#![tactic(auto)]

mod laws;

pub use laws::{first_player, openings_small, openings_turned};
