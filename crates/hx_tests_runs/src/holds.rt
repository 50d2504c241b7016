//! While a worker is below a move, it holds the move's loss word; before it goes down and after its work it holds none.

ghost use Rattle.std.specs.Prelude.{◌≡◌};
ghost use Rattle.hx_count.specs.Machine.{held_in_all};
ghost use Rattle.hx_count.specs.Seats.{own};
ghost use Rattle.hx_ordering.specs.declared.losses.TheConstants.{LOSS_WORDS};

use super::seats::two_seats;
use hx_board::{Colour, Mask, Memory, Position, Size};
use hx_book::Book;
use hx_count::{CountSeat, Counts, Hints};
use hx_io::Gate;
use hx_ordering::{LOSS_WORDS, Replies};
use hx_worker::{Ended, Job, new_sets, work};
use hx_zones::Zones;
use std::alloc::Global;
use std::cell::RefCell;
use std::sync::Wait;
use std::test::Fail;

/// A seat that looks at the loss words, and how many holds it saw at the worker's first turn, and at the later turn
/// that saw the fewest.
#[derive(Drop)]
struct Watch<'a> {
    counts: &'a Counts,
    seat: CountSeat,
    at_first: u64,
    fewest_later: u64,
    ghost fits: { seat.made ≡ counts.now },
    ghost words: { counts.now.limits.words ≡ LOSS_WORDS },
}

impl Watch<'_> {
    /// How often all workers together hold a word.
    fn holds(&mut self) -> u64 {
        let mut holds = 0u64;
        for word in 0..LOSS_WORDS {
            holds = holds.saturating_add(self.counts.losses(&mut self.seat, word));
        }
        holds
    }

    fn look(&mut self, turn: u64) {
        let holds = self.holds();
        if turn == 0 {
            self.at_first = holds;
        } else {
            self.fewest_later = self.fewest_later.min(holds);
        }
    }
}

/// A gate that watches its worker at each turn.
#[derive(Drop)]
struct WatchingGate<'a> {
    watch: RefCell<Watch<'a>>,
}

impl Gate for WatchingGate<'_> {
    fn at_turn(&self, _worker: u32, turn: u64) {
        if let Ok(mut watch) = self.watch.try_borrow_mut() {
            watch.look(turn);
        }
    }
}

/// What a worker has beside its seat and its position.
#[derive(Drop)]
struct Bench<'a> {
    counts: &'a Counts,
    hints: &'a Hints,
    replies: &'a Replies,
    zones: &'a Zones,
}

/// A worker's work on a position with White to move, over a book of its own.
fn work_on<R: Wait>(
    rt: &R,
    alloc: Global,
    position: Position,
    bench: &Bench<'_>,
    seat: CountSeat,
    gate: &WatchingGate<'_>,
) -> Result<Ended, Memory>
    requires seat { seat.made ≡ bench.now.counts.now }
    requires words { bench.now.counts.now.limits.words ≡ LOSS_WORDS }
    requires nothing_held { held_in_all (own seat) ≡ 0 }
{
    let (black, white) = new_sets(alloc, &position)?;
    let proofs = Book::with_slots(alloc, 1024)?;
    let mut job = Job {
        worker: 0,
        position,
        to_move: Colour::White,
        proofs,
        counts: bench.counts,
        seat,
        hints: bench.hints,
        replies: bench.replies,
        zones: bench.zones,
        black,
        white,
    };
    Ok(work(rt, &mut job, gate))
}

/// As `work_on`, with tables of its own of what workers leave for one another.
fn worked<R: Wait>(
    rt: &R,
    alloc: Global,
    position: Position,
    counts: &Counts,
    seat: CountSeat,
    gate: &WatchingGate<'_>,
) -> Result<Ended, Memory>
    requires seat { seat.made ≡ counts.now }
    requires words { counts.now.limits.words ≡ LOSS_WORDS }
    requires nothing_held { held_in_all (own seat) ≡ 0 }
{
    let hints = Hints::with_words(alloc, 1024)?;
    let replies = Replies::new(alloc)?;
    let zones = Zones::with_blocks(alloc, 16)?;
    let bench = Bench {
        counts,
        hints: &hints,
        replies: &replies,
        zones: &zones,
    };
    work_on(rt, alloc, position, &bench, seat, gate)
}

/// Black's f1 on the board of 6 by 6, which five units do not decide.
fn long() -> Option<Position> {
    Position::from_masks(Size::new(6, 6)?, Mask::of(0x20), Mask::empty())
}

#[test]
fn a_worker_holds_the_move_that_it_is_below(rt: HostRuntime) -> Result<(), Fail> {
    let position = long().ok_or("stones")?;
    let (counts, seat, watching) = two_seats(rt.alloc(), 5)?;
    let gate = WatchingGate {
        watch: RefCell::new(Watch {
            counts: &counts,
            seat: watching,
            at_first: u64::MAX,
            fewest_later: u64::MAX,
        }),
    };
    let ended = worked(&rt, rt.alloc(), position, &counts, seat, &gate).or(Err("memory"))?;
    assert!(rt; matches!(ended, Ended::Spent(_)));
    let WatchingGate { watch } = gate;
    let mut watch = watch.into_inner();
    assert_eq!(rt; watch.at_first, 0);
    assert!(rt; 0 < watch.fewest_later && watch.fewest_later < u64::MAX);
    assert_eq!(rt; watch.holds(), 0);
    Ok(())
}
