//! What several tests make: a shared book with its seats, the book that it is closed to, and a store of Black's chain.

ghost use Rattle.std.specs.Prelude.{◌≡◌, ◌<◌, ◌≤◌, IfOk, IfSome};
ghost use Rattle.std.specs.List.{All};
ghost use Rattle.hx_board.specs.declared.colours.Colour.TheVariants.{Black, White};
ghost use Rattle.hx_tree.specs.declared.nodes.Rule.TheVariants.{Chain};
ghost use Rattle.hx_book.specs.Puts.{PutsLater};

use hx_board::Colour::{Black, White};
use hx_board::{Position, chain};
use hx_book::{Book, NoSlot};
use hx_packed::Offer;
use hx_share::{BookSeat, Shared};
use hx_tree::{Heading, Node, Rule};
use std::alloc::Global;
use std::sync::Wait;
use std::test::Fail;

/// A shared book with its seats.
pub(crate) fn start(alloc: Global, slots: u32, seats: u32) -> Result<(Shared, Vec<BookSeat>), Fail>
    requires slots { slots ≤ 1048576 }
    requires seats { (0 < seats) × (seats ≤ 64) }
    ensures seats { IfOk result (λ made. made.0.seats ≡ seats) }
    ensures fit { IfOk result (λ made. All (λ s. s.made ≡ made.0.made) made.1.items) }
{
    Ok(Shared::start(alloc, slots, seats).or(Err("memory"))?)
}

/// The seat that was dealt last, of a shared book that it fits.
pub(crate) fn last_seat(shared: &Shared, seats: &mut Vec<BookSeat>) -> Result<BookSeat, Fail>
    requires { All (λ s. s.made ≡ shared.now.made) seats.old.items }
    ensures seat { IfOk result (λ s. s.made ≡ shared.now.made) }
    ensures rest { All (λ s. s.made ≡ shared.now.made) seats.new.items }
{
    let _ = shared;
    Ok(seats.pop().ok_or("no seat")?)
}

/// The book of so many seats.
pub(crate) fn close(shared: Shared, seats: Vec<BookSeat>, count: u32) -> Result<Book, Fail>
    requires seats { shared.seats ≡ count }
    requires fit { All (λ s. s.made ≡ shared.made) seats.items }
{
    if seats.len() != count as usize {
        return Err("a seat is missing".into());
    }
    Ok(shared.close(seats))
}

/// The book of two seats.
pub(crate) fn close_two(
    alloc: Global,
    shared: Shared,
    first: BookSeat,
    second: BookSeat,
) -> Result<Book, Fail>
    requires seats { shared.seats ≡ 2 }
    requires first { first.made ≡ shared.made }
    requires second { second.made ≡ shared.made }
{
    let mut seats = Vec::new(alloc);
    seats.push(first)?;
    seats.push(second)?;
    close(shared, seats, 2)
}

/// The offer of a node by which Black wins the position by its chain, with White to move.
fn by_chain(position: Position) -> Offer
    ensures { result ≡ record {
      rule = Chain;
      heading = record { position = position; to_move = White; winner = Black };
    } }
{
    let heading = Heading {
        position,
        to_move: White,
        winner: Black,
    };
    let rule = Rule::Chain;
    match Offer::of(Node { heading, rule }) {
        Ok(offer) => offer,
        Err(_) => unreachable!(),
    }
}

/// Stores a position with Black's chain.
pub(crate) fn store_chain<R: Wait>(
    rt: &R,
    shared: &Shared,
    seat: &mut BookSeat,
    position: &Position,
) -> Option<Result<u32, NoSlot>>
    requires { seat.old.made ≡ shared.now.made }
    ensures made { seat.new.made ≡ seat.old.made }
    ensures stored { IfSome result (λ answer. PutsLater shared.now.made.slots seat.old.seen
        (record {
          rule = Chain;
          heading = record { position = position.now; to_move = White; winner = Black };
        })
        answer seat.new.seen) }
{
    let _size = position.size();
    if !chain(position, Black) {
        return None;
    }
    Some(shared.store(rt, seat, by_chain(*position)))
}
