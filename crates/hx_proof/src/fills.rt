//! What fill steps show.

ghost use Rattle.hx_board.specs.declared.colours.Colour.{Colour};
ghost use Rattle.hx_board.specs.Game.{Wins};
ghost use Rattle.hx_inferior.specs.Inferior.{MayFill, filled};

use hx_board::{Colour, Position};
use hx_inferior::FillStep;

/// Who wins after a fill step wins before it, whoever is to move.
pub fn fill_sound(position: &Position, colour: Colour, step: FillStep)
    requires { MayFill position.now colour step }
    ensures { (mover : Colour) → Wins colour (filled position.now colour step) mover
        → Wins colour position.now mover }
{
    // The proof takes from here that the position's board is one.
    let _size = position.size();
}
