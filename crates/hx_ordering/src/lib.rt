//! The moves of a visit: in which order they are tried, with which numbers, and which one a search goes down to.
//!
//! All of this only says where to look. Nothing here is in a proof of a position, so each heuristic may be wrong. Each
//! stands in a file of its own that says what it brings.
//!
//! What a file says that its heuristic brings was measured with an unverified program of the same heuristics, but for
//! `replies.rt` and `rest.rt`, whose figures are of the search of hx_dfpn.
#![tactic(auto)]

mod children;
mod choices;
mod focus;
mod given;
mod losses;
mod marks;
mod moves;
mod orders;
mod replies;
mod rest;
mod situations;
mod starts;
mod stones;
mod unseen_moves;

pub use children::Child;
pub use choices::{Choice, Down, choose, numbers_of};
pub use focus::in_focus;
pub use losses::{LOSS_WORDS, loss_word};
pub use marks::{is_marked, leave_mark, leave_open, open};
pub use moves::Moves;
pub use replies::Replies;
pub use situations::Situation;
pub use starts::Start;
pub use stones::{Stone, after};
pub use unseen_moves::first_numbers;
