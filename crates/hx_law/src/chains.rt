//! Who has a chain.

ghost use Rattle.hx_board.specs.Positions.{IsFull};
ghost use Rattle.hx_law.specs.Laws.{NeverBoth, AlwaysOne, HasOnlyChain};

use hx_board::{Colour, Position, chain};

/// The player who has a chain on a full board. The opponent has none.
pub fn winner_of_full(position: &Position) -> Colour
    requires { IsFull position.now }
    ensures { HasOnlyChain position.now result }
{
    never_both(position);
    always_one(position);
    if chain(position, Colour::Black) {
        Colour::Black
    } else {
        Colour::White
    }
}

/// Not both players have a chain.
pub fn never_both(position: &Position)
    ensures { NeverBoth position.now }
{
    // The proof takes from here that the position's board is one.
    let _size = position.size();
}

/// On a full board one of the players has a chain.
pub fn always_one(position: &Position)
    requires { IsFull position.now }
    ensures { AlwaysOne position.now }
{
    // The proof takes from here that the position's board is one.
    let _size = position.size();
}
