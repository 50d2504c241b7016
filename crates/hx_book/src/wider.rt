//! Entries that serve more positions than their own.
//!
//! A player who wins a position also wins it where the opponent lacks some of his stones. So an entry serves each
//! position of its mover that has the same stones of its winner and whose stones of the opponent are all in the entry's
//! position. A node that fills in the missing stones leads from such a position to the entry.

ghost use Rattle.std.specs.Prelude.{◌↔◌, IsTrue};
ghost use Rattle.hx_book.specs.WiderEntry.{IsWider};

use hx_board::{Colour, Position};
use hx_tree::{Found, Heading};

/// An entry that serves a position, with the position of the entry.
#[derive(Clone, Copy, PartialEq, Eq, Debug)]
pub struct Wider {
    pub found: Found,
    pub position: Position,
}

/// Whether a heading of this mover and winner has the same stones of the winner and all of the position's stones of the
/// opponent.
pub(crate) fn is_wider(
    heading: &Heading,
    position: &Position,
    to_move: Colour,
    winner: Colour,
) -> bool
    ensures { IsTrue result ↔ IsWider heading.now position.now to_move winner }
{
    let there = &heading.position;
    let opponent = winner.other();
    there.stones(winner) == position.stones(winner)
        && position.stones(opponent).inside(there.stones(opponent))
        && heading.winner == winner
        && heading.to_move == to_move
        && there.size() == position.size()
}
