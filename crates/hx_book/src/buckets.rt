//! The buckets in which entries are looked up: by the position and its mover, and by one player's stones and the mover.

ghost use Rattle.std.specs.Prelude.{◌≡◌, ◌<◌};
ghost use Rattle.hx_board.specs.Positions.{IsPosition};
ghost use Rattle.hx_book.specs.Buckets.{bucket_of, alone_of, stones_bucket_of};

use hx_board::{Colour, Mask, Position, Size};
use hx_turn::folded_key;

/// 2^64.
const HALF: u128 = 18446744073709551616;

/// The bucket of a position and mover: as far into the buckets as their key is into all keys. A product is faster than
/// a remainder by a number that is known only at run time.
#[tactic(auto, unfolding(crate::specs::Buckets::bucket_of))]
pub(crate) fn bucket(buckets: usize, position: &Position, mover: Colour) -> usize
    requires { 0 < buckets }
    ensures value { result ≡ bucket_of buckets position.now mover }
    ensures below { result < buckets }
{
    let product = folded_key(position, mover) as u128 * buckets as u128;
    (product / HALF) as usize
}

/// The bucket of a player's stones and a mover. Whatever stones the opponent has, it is the same.
pub(crate) fn stones_bucket(
    buckets: usize,
    position: &Position,
    mover: Colour,
    winner: Colour,
) -> usize
    requires { 0 < buckets }
    ensures value { result ≡ stones_bucket_of buckets position.now mover winner }
    ensures below { result < buckets }
{
    bucket(buckets, &alone(position, winner), mover)
}

/// The position with the stones of one player alone.
fn alone(position: &Position, player: Colour) -> Position
    ensures { result ≡ alone_of position.now player }
{
    let size = position.size();
    let stones = position.stones(player);
    match player {
        Colour::Black => placed(size, stones, Mask::empty()),
        Colour::White => placed(size, Mask::empty(), stones),
    }
}

/// The position with these stones, which stand on different cells of the board.
fn placed(size: Size, black: Mask, white: Mask) -> Position
    requires { IsPosition size black white }
    ensures { result ≡ record { size = size; black = black; white = white } }
{
    match Position::from_masks(size, black, white) {
        Some(found) => found,
        None => unreachable!(),
    }
}
