//! Laws of Hex over its definitions: who has a chain, what a stone or a move more is worth, and that exactly one player
//! wins. All but `winner_of_full` are functions that do nothing; what they say stands in their contracts.
#![tactic(auto)]

mod chains;
mod winners;

pub use chains::{always_one, never_both, winner_of_full};
pub use winners::{extra_move, extra_stone, one_winner};
