//! How a set stood before the plays that stand, and the position after a play.

ghost use Rattle.std.specs.Prelude.{◌≡◌, ◌↔◌, ◌≤◌, IsTrue, length, reverse, drop};
ghost use Rattle.hx_linkset.specs.States.{CanPut, put_all};
ghost use Rattle.hx_linkset.specs.Plays.{stage_before};

use hx_board::{Cell, Colour, Mask, Position, Size};
use hx_link::Link;

/// 2^64.
const HALF: u128 = 18446744073709551616;

/// An odd number with about as many digits 1 as 0.
const SALT: u64 = 11400714819323198485;

/// How a set stood at some time: the position, and how long the lists were.
#[derive(Clone, Copy)]
pub(crate) struct Stage {
    pub(crate) position: Position,

    /// How many links there were.
    pub(crate) count: usize,

    /// How many places the log of dropped links had.
    pub(crate) logged: usize,
}

/// How a set stands that has this position, these links and this log.
pub(crate) fn stage_of(position: &Position, links: &[Link], log: &[u16]) -> Stage
    ensures { result ≡ record {
      position = position.now;
      count = length links.now;
      logged = length log.now;
    } }
{
    Stage {
        position: *position,
        count: links.len(),
        logged: log.len(),
    }
}

/// How a set stood before the last of its plays: those before which there were as many links as there
/// are now. The stages are those before its plays.
pub(crate) fn before_last(now: &Stage, plays: &[Stage]) -> Stage
    ensures { result ≡ stage_before now.now (reverse plays.now) }
{
    match plays.split_last() {
        None => *now,
        Some((play, earlier)) => {
            if play.count == now.count {
                before_last(play, earlier)
            } else {
                *now
            }
        }
    }
}

/// What a log has from a place on.
pub(crate) fn logged_from(log: &[u16], first: usize) -> &[u16]
    requires { first ≤ length log.now }
    ensures { result.now ≡ drop first log.now }
{
    &log[first..]
}

/// The position with these stones more.
pub(crate) fn with_all(position: &Position, stones: &[(Colour, Cell)]) -> Position
    requires { CanPut position.now stones.now }
    ensures { result ≡ put_all position.now stones.now }
{
    let mut after = *position;
    for stone in stones {
        after.play(stone.0, stone.1);
    }
    after
}

/// Whether each of these stones comes to an empty cell, when they are put one after the other.
pub(crate) fn can_put(position: &Position, stones: &[(Colour, Cell)]) -> bool
    ensures { IsTrue result ↔ CanPut position.now stones.now }
{
    let mut so_far = *position;
    for stone in stones {
        let is_empty = so_far.empties().has(stone.1);
        if !is_empty {
            return false;
        }
        so_far.play(stone.0, stone.1);
    }
    true
}

/// A key of a player, of the board's size, of how a set of his stands, and of how it stood before each of its plays.
pub(crate) fn key_of(player: Colour, now: &Stage, plays: &[Stage]) -> u64 {
    let mut key = with_size(player, now.position.size());
    for play in plays {
        key = with_stage(key, play);
    }
    with_stage(key, now)
}

/// A key of a player and a size.
fn with_size(player: Colour, size: Size) -> u64 {
    let owner = match player {
        Colour::Black => 0,
        Colour::White => 1,
    };
    with_word(
        with_word(owner, u64::from(size.rows())),
        u64::from(size.cols()),
    )
}

/// A key, and a stage mixed into it. How long the log was follows from the stages before it.
fn with_stage(key: u64, stage: &Stage) -> u64 {
    let with_black = with_mask(key, stage.position.stones(Colour::Black));
    let with_white = with_mask(with_black, stage.position.stones(Colour::White));
    with_word(with_white, stage.count as u64)
}

/// A key, and the two halves of a set mixed into it.
fn with_mask(key: u64, mask: Mask) -> u64 {
    let low = (mask.bits() % HALF) as u64;
    let high = (mask.bits() / HALF) as u64;
    with_word(with_word(key, low), high)
}

/// A key, and a word mixed into it. The product carries each digit up, and the turn brings the upper ones down.
fn with_word(key: u64, word: u64) -> u64 {
    (key ^ word).wrapping_mul(SALT).rotate_left(32)
}
