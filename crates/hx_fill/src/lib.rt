//! What need not be searched: cells that are filled before a search goes on, and moves that a link answers or another
//! move is better than.
#![tactic(auto)]

mod candidates;
mod choices;
mod dominations;
mod fills;
mod makers;
mod mustplay;
mod musts;
mod reaches;
mod rounds;
mod threats;
mod tried_cells;
mod unders;
mod views;
mod winners_steps;

pub use fills::{Fill, Filled};
pub use mustplay::{must, must_without_lines};
pub use musts::Must;
pub use rounds::{fill_in, fill_in_for};
pub use tried_cells::without_lines;
pub use winners_steps::steps_for;
