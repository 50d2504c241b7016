//! Steps that fill cells while a claim is made that a player wins.
//!
//! A stone of the opponent only makes the claim harder to keep. A dead cell changes nothing, and a captured pair is as
//! good as the player's already. So a proof may go on from the board with these cells filled, where more is joined and
//! fewer moves are left. Hayward, van Rijswijck, Arneson and Henderson call it fill-in.

ghost use Rattle.std.specs.Prelude.{◌≡◌, ◌↔◌, IsTrue, SomeIff};
ghost use Rattle.hx_inferior.specs.Inferior.{MayFill, filled};

use crate::dead_cells::dead;
use crate::pairs::pair;
use hx_board::{Cell, Colour, Position};

/// A step: the opponent's stone on any empty cell, or the stones of the player who is to win on a dead cell or a
/// captured pair.
#[derive(Clone, Copy, PartialEq, Eq, Debug)]
pub enum FillStep {
    Other(Cell),
    Dead(Cell),
    Pair(Cell, Cell),
}

/// Whether a step may be done.
fn may_fill(position: &Position, winner: Colour, step: &FillStep) -> bool
    ensures { IsTrue result ↔ MayFill position.now winner step.now }
{
    match step {
        FillStep::Other(cell) => position.empties().has(*cell),
        FillStep::Dead(cell) => dead(position, winner, *cell),
        FillStep::Pair(a, b) => pair(position, winner, *a, *b),
    }
}

/// The position after a step that may be done. Where that is known, nothing is asked of the cells again, as `fill_one`
/// does.
pub fn after_fill(position: &Position, winner: Colour, step: &FillStep) -> Position
    requires { MayFill position.now winner step.now }
    ensures { result ≡ filled position.now winner step.now }
{
    match step {
        FillStep::Other(cell) => position.with(winner.other(), *cell),
        FillStep::Dead(cell) => position.with(winner, *cell),
        FillStep::Pair(a, b) => {
            let with_a = position.with(winner, *a);
            with_a.with(winner, *b)
        }
    }
}

/// The position after a step of a player who is to win. None exactly where the step may not be done: the opponent's
/// stone may come on any empty cell, the player's on a cell that is dead for the player, and on both cells of a pair of
/// the player.
pub fn fill_one(position: &Position, colour: Colour, step: FillStep) -> Option<Position>
    ensures { SomeIff result (MayFill position.now colour step) (filled position.now colour step) }
{
    if may_fill(position, colour, &step) {
        Some(after_fill(position, colour, &step))
    } else {
        None
    }
}
