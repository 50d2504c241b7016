//! What a worker steps with, and what it gives back.
//!
//! Each worker has a place of its own, in which its seats wait for it and to which they come back with the end of its
//! work. So all room for what comes back is there before the work begins.

use hx_count::CountSeat;
use hx_limits::RanOut;
use hx_share::BookSeat;

/// A worker's number and its seats: one at the shared book and one at the counts.
#[derive(Drop)]
pub struct Seats {
    pub worker: u32,
    pub book: BookSeat,
    pub counts: CountSeat,
}

/// A worker's seats, and what it comes back with.
#[derive(Drop)]
pub struct Done<F> {
    pub book: BookSeat,
    pub counts: CountSeat,
    pub end: Result<F, RanOut>,
}

/// What lies at a worker's place.
#[derive(Drop)]
pub(crate) enum Place<F> {
    /// Its seats, before its work.
    Before(Seats),

    /// Nothing, while it works.
    Meanwhile,

    /// What came of its work.
    After(Done<F>),
}
