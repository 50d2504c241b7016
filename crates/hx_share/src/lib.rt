//! A book of proofs that many workers share. One at a time has it: a worker waits for the book, looks or stores, and
//! gives it back.
//!
//! A turn at the book takes a quarter of a microsecond where many threads want it, since the book goes out of its slot
//! and back with each. A search asks for a few looks in each unit of some 200 microseconds, so the turn is seldom
//! waited for. A seat that waits lets other threads run in the end, so eight threads on four processors get on as well
//! as four.
#![tactic(auto)]

mod desks;
mod laws;
mod readers;
mod rules;
mod shared;
mod views;

pub use desks::Desk;
pub use laws::{
    answers_as_the_machine, book_names_winners, entries_agree, seat_names_winners, stored_is_found,
};
pub use readers::{BookNote, BookSeat};
pub use shared::Shared;
