//! What a search may use, what ran out where it came to no answer, and how often that was so in a run.
//!
//! A unit is refused by the counts, and a slot by a list of proofs, and nowhere else is a refusal made. So whoever says
//! that one of them ran out has its refusal, which tells how much there was.
#![tactic(auto)]

mod ran_out;
mod settings;
mod tallies;

pub use ran_out::RanOut;
pub use settings::{MOST_PROOFS, MOST_UNITS, MOST_WORKERS, Settings};
pub use tallies::Tally;
