//! Threads that store boards in one book: each finds what it stored, and none is lost or stored twice.

ghost use Rattle.std.specs.Prelude.{◌≡◌, IfOk};
ghost use Rattle.std.specs.List.{All};

use crate::made::{close, close_two, last_seat, start, store_chain};
use hx_board::Colour::{Black, White};
use hx_board::{Mask, Position, Size};
use hx_share::{BookSeat, Shared};
use hx_tree::Found;
use std::process::Abort;
use std::sync::Wait;
use std::sync::atomic::AtomicU64;
use std::sync::atomic::Ordering::SeqCst;
use std::test::Fail;
use std::thread;
use std::thread::Threads;

/// The cells of the sixth column.
const COLUMN: u128 = 0x0008_0100_2004_0080_1002_0040_0801_0020;

/// The cell at this place of those that are not in the sixth column.
fn beside(place: u64) -> u128 {
    let (row, col) = (place / 10 % 11, place % 10);
    let col = if col < 5 { col } else { col + 1 };
    1u128 << (row * 11 + col)
}

/// Boards with Black's stones on the sixth column: with one stone of White's, of which there are 110, or a thousand
/// with two.
#[derive(Clone, Copy)]
enum Boards {
    OneStone,
    TwoStones,
}

impl Boards {
    /// White's stones on the board of this number.
    fn stones(self, number: u64) -> u128 {
        match self {
            Boards::OneStone => beside(number),
            Boards::TwoStones => beside(number / 100 % 10) | beside(number % 100 + 10),
        }
    }
}

/// The board with these stones of White's.
fn column(white: u128) -> Option<Position> {
    let size = Size::new(11, 11)?;
    Position::from_masks(size, Mask::of(COLUMN), Mask::of(white))
}

/// Stores a board, and looks for it: whether it is found where the store says.
fn store_and_look<R: Wait>(rt: &R, shared: &Shared, seat: &mut BookSeat, white: u128) -> bool
    requires { seat.old.made ≡ shared.now.made }
    ensures { seat.new.made ≡ seat.old.made }
{
    let Some(position) = column(white) else {
        return false;
    };
    let Some(Ok(index)) = store_chain(rt, shared, seat, &position) else {
        return false;
    };
    let winner = Black;
    shared.look(rt, seat, &position, White) == Some(Found { index, winner })
}

/// Which boards each thread stores: so many, from a first one on, which comes so much later from thread to thread. And
/// how many of all were found.
#[derive(Drop)]
struct Work {
    boards: Boards,
    count: u64,
    apart: u64,
    next: AtomicU64,
    found: AtomicU64,
}

impl Work {
    fn new(boards: Boards, count: u64, apart: u64) -> Work {
        Work {
            boards,
            count,
            apart,
            next: AtomicU64::new(0),
            found: AtomicU64::new(0),
        }
    }
}

/// One thread's boards.
fn store_boards<R: Wait>(rt: &R, shared: &Shared, work: &Work, seat: BookSeat) -> BookSeat
    requires { seat.made ≡ shared.now.made }
    ensures { result.made ≡ shared.now.made }
{
    let mut seat = seat;
    let first = work.next.fetch_add(work.apart, SeqCst);
    for place in 0..work.count {
        let white = work.boards.stones(first.wrapping_add(place));
        if store_and_look(rt, shared, &mut seat, white) {
            work.found.fetch_add(1, SeqCst);
        }
    }
    seat
}

/// A thread for each seat.
fn store_all<R: Threads + Wait + Sync>(
    rt: &R,
    shared: &Shared,
    work: &Work,
    seats: Vec<BookSeat>,
) -> Result<Vec<BookSeat>, Fail>
    requires { All (λ s. s.made ≡ shared.now.made) seats.items }
    ensures { IfOk result (λ v. All (λ s. s.made ≡ shared.now.made) v.items) }
{
    Ok(thread::map_vec(rt, seats, &|seat| store_boards(rt, shared, work, seat))?)
}

/// A full book refuses the board with no stone of White's, of which it has a wider entry.
fn refuses_and_finds<R: Wait + Abort>(
    rt: &R,
    shared: &Shared,
    seat: &mut BookSeat,
) -> Result<(), Fail>
    requires { seat.old.made ≡ shared.now.made }
    ensures { seat.new.made ≡ seat.old.made }
{
    let bare = column(0).ok_or("stones")?;
    let refused = store_chain(rt, shared, seat, &bare).ok_or("no chain")?;
    let refusal = refused.err().ok_or("a slot was left")?;
    assert_eq!(rt; refusal.held(), 110);
    let wider = shared.look_wider(rt, seat, &bare, White, Black);
    assert!(rt; wider.is_some());
    Ok(())
}

#[test]
fn two_threads_fill_a_book(rt: HostRuntime) -> Result<(), Fail> {
    let (shared, seats) = start(rt.alloc(), 110, 2)?;
    let work = Work::new(Boards::OneStone, 55, 55);
    let mut seats = store_all(&rt, &shared, &work, seats)?;
    assert_eq!(rt; work.found.load(SeqCst), 110);
    let mut second = last_seat(&shared, &mut seats)?;
    let first = last_seat(&shared, &mut seats)?;
    refuses_and_finds(&rt, &shared, &mut second)?;
    let book = close_two(rt.alloc(), shared, first, second)?;
    assert_eq!(rt; book.held(), 110);
    Ok(())
}

#[test]
fn eight_threads_store_the_same_boards(rt: HostRuntime) -> Result<(), Fail> {
    let (shared, seats) = start(rt.alloc(), 2000, 8)?;
    let work = Work::new(Boards::TwoStones, 1000, 125);
    let seats = store_all(&rt, &shared, &work, seats)?;
    assert_eq!(rt; work.found.load(SeqCst), 8000);
    assert_eq!(rt; close(shared, seats, 8)?.held(), 1000);
    Ok(())
}
