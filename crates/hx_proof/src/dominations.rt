//! What a better move shows of a worse one.

ghost use Rattle.hx_board.specs.Colours.{other_of};
ghost use Rattle.hx_board.specs.Positions.{put};
ghost use Rattle.hx_board.specs.Game.{Wins};
ghost use Rattle.hx_inferior.specs.Inferior.{IsDominated};

use hx_board::{Cell, Colour, Position};
use hx_inferior::Kill;

/// Where the opponent of the mover wins after the better move, so after the worse one.
pub fn under_sound(position: &Position, mover: Colour, better: Cell, worse: Cell, kill: Kill)
    requires { IsDominated position.now mover better worse kill }
    ensures { Wins (other_of mover) (put position.now mover better) (other_of mover)
        → Wins (other_of mover) (put position.now mover worse) (other_of mover) }
{
    // The proof takes from here that the position's board is one.
    let _size = position.size();
}
