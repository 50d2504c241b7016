//! What many workers share beside their proofs: units of a budget, loss words, which workers hold and release, and
//! hints.
//!
//! A call that a worker makes is one step on one word at the most, and takes no lock. One thread alone takes the memory
//! for all words, before the workers begin (`start`, `with_words`), and adds up what they were granted and hold when
//! they have ended (`close`).
#![tactic(auto)]

mod counts;
mod events;
mod hints;
mod laws;
mod rules;
mod seats;
mod totals;
mod views;

pub use counts::Counts;
pub use events::{CountEvent, MOST_HELD};
pub use hints::{HIGHEST_KEPT, Hints, Left, kept};
pub use laws::{hold_adds_one, release_takes_back};
pub use seats::{CountSeat, Spent};
pub use totals::Totals;
