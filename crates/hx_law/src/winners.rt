//! Who wins.

ghost use Rattle.hx_board.specs.Positions.{IsEmpty};
ghost use Rattle.hx_law.specs.Laws.{ExtraStone, ExtraMove, OneWinner};

use hx_board::{Cell, Colour, Position};

/// A further stone of the player keeps a win, whoever is to move.
pub fn extra_stone(position: &Position, to_move: Colour, colour: Colour, cell: Cell)
    requires { IsEmpty position.now cell }
    ensures { ExtraStone position.now to_move colour cell }
{}

/// Who wins with the opponent to move wins with the move.
pub fn extra_move(position: &Position, colour: Colour)
    ensures { ExtraMove position.now colour }
{}

/// Exactly one player wins.
pub fn one_winner(position: &Position, to_move: Colour)
    ensures { OneWinner position.now to_move }
{
    // The proof takes from here that the position's board is one.
    let _size = position.size();
}
