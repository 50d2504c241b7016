//! Searches that leave zones in a table.

ghost use Rattle.std.specs.Prelude.{◌≡◌, IfOk};
ghost use Rattle.hx_count.specs.Machine.{held_in_all};
ghost use Rattle.hx_count.specs.Seats.{own};

use hx_board::{Colour, Memory, Position};
use hx_book::Book;
use hx_count::{CountSeat, Counts, Hints};
use hx_io::RealGate;
use hx_ordering::{LOSS_WORDS, Replies};
use hx_worker::{Job, new_sets, work};
use hx_zones::Zones;
use std::alloc::Global;
use std::sync::Wait;

/// The budget of a search.
const UNITS: u64 = 10_000;

/// The units of a search, and the seat of its only worker.
fn units(alloc: Global) -> Result<(Counts, CountSeat), Memory>
    ensures words { IfOk result (λ made. made.0.limits.words ≡ LOSS_WORDS) }
    ensures seat { IfOk result (λ made. made.1.made ≡ made.0) }
    ensures nothing_held { IfOk result (λ made. held_in_all (own made.1) ≡ 0) }
{
    let (counts, mut seats) = Counts::start(alloc, UNITS, LOSS_WORDS, 1)?;
    let Some(seat) = seats.pop() else {
        unreachable!()
    };
    Ok((counts, seat))
}

/// What a search has but for its position.
#[derive(Drop)]
struct Bench<'a> {
    counts: &'a Counts,
    hints: &'a Hints,
    replies: &'a Replies,
    zones: &'a Zones,
}

/// A worker with this seat searches a position, over a book of its own.
fn work_on<R: Wait>(
    rt: &R,
    alloc: Global,
    bench: &Bench<'_>,
    seat: CountSeat,
    position: &Position,
    to_move: Colour,
) -> Result<(), Memory>
    requires seat { seat.made ≡ bench.now.counts.now }
    requires words { bench.now.counts.now.limits.words ≡ LOSS_WORDS }
    requires nothing_held { held_in_all (own seat) ≡ 0 }
{
    let (black, white) = new_sets(alloc, position)?;
    let proofs = Book::with_slots(alloc, 4096)?;
    let mut job = Job {
        worker: 0,
        position: *position,
        to_move,
        proofs,
        counts: bench.counts,
        seat,
        hints: bench.hints,
        replies: bench.replies,
        zones: bench.zones,
        black,
        white,
    };
    let _ended = work(rt, &mut job, &RealGate);
    Ok(())
}

/// A worker searches a position, and leaves zones.
pub(crate) fn search<R: Wait>(
    rt: &R,
    alloc: Global,
    zones: &Zones,
    position: &Position,
    to_move: Colour,
) -> Result<(), Memory> {
    let hints = Hints::with_words(alloc, 4096)?;
    let replies = Replies::new(alloc)?;
    let (counts, seat) = units(alloc)?;
    let bench = Bench {
        counts: &counts,
        hints: &hints,
        replies: &replies,
        zones,
    };
    work_on(rt, alloc, &bench, seat, position, to_move)
}
