//! Workers in threads over one shared book, for whatever they are sent for.
//!
//! What they are sent for is an errand: it says what each worker does with its seats, and what an end of that work
//! says. All workers run one errand. When they have ended, the book and the counts are closed, and what the end that
//! counts says of the worker's list and of its seat it says of the closed book and of all counts.
#![tactic(auto)]

mod benches;
mod crews;
mod deals;
mod ends;
mod errands;
mod hints;
mod parts;
mod searches;
mod seats;

pub use benches::Bench;
pub use ends::foremost;
pub use errands::Errand;
pub use hints::hint_words;
pub use searches::{Searched, run_all, run_with_zones};
pub use seats::{Done, Seats};
