//! Positions and plain programs that the tests and the measurements of several crates share. No crate's own code calls
//! them.
//!
//! The plain programs say what the definitions say, in the slowest obvious way and with none of the fast calls:
//! touching by rows and columns, joining by a walk from vertex to vertex, winning by every game to its end. Tests hold
//! the fast calls against them, so they promise no more than a test must know to call on.
#![tactic(auto)]

mod draws;
mod games;
mod numbering;
mod walks;

pub use draws::Draws;
pub use games::{wins, wins_by};
pub use numbering::{SMALL_BOARDS, numbered};
pub use walks::{empty_count, has_chain, is_own, is_vertex, joined_to, touch};
