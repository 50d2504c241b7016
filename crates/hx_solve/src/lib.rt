//! Many workers on one position: a tree that proves who wins it, or the winner alone, or what ran out.
//!
//! The workers search in threads, over one shared book of proofs and one table of counts. When all of them have ended,
//! the proof that a worker came to is taken out of the book as a tree. A small position is never left open: where no
//! worker came to a proof of it, a full search solves it.
#![tactic(auto)]

mod kept_zones;
mod laws;
mod lone_searches;
mod one_position;
mod plain_solves;
mod small_positions;
mod solves;
mod trees;
mod winners;

pub use hx_limits::{RanOut as Unsolved, Settings, Tally};
pub use hx_sweep::is_small;
pub use kept_zones::KeptZones;
pub use laws::same_winner;
pub use plain_solves::solve_plain;
pub use solves::{solve, solve_naming_move};
pub use winners::winner;
