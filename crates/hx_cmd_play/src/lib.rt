//! The command `play`: the text of a tree, and then a game against it, from one input.
//!
//! The tree is read to its last line and judged as `check` does; its nodes are kept, and all have to be plain. Before
//! that nothing is written, so a fault in it is the only thing said. The lines behind it are the opponent's moves.
#![tactic(auto)]

mod play;
mod refusals;
mod trees;

pub use play::run_play;
pub use refusals::Refusal;
