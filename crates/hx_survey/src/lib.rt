//! The command `survey`: who wins after each opening of a board.
//!
//! All openings are proved into one book, by workers that go through them. The table is read from the closed book,
//! whose entries name who wins, so nothing that a worker says is in it.
#![tactic(auto)]

mod openings;
mod order;
mod readings;
mod shares;
mod surveys;
mod tables;

pub use hx_limits::RanOut as Unfinished;
pub use surveys::survey;
pub use tables::Table;
