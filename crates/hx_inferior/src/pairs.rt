//! Captured pairs.
//!
//! Two empty cells are a pair of a player where each is dead once the player has the other. So the player answers on
//! the one where the opponent takes the other, and both count as the player's from the start. Hayward, van Rijswijck,
//! Arneson and Henderson call such cells captured.

ghost use Rattle.std.specs.Prelude.{◌↔◌, IsTrue};
ghost use Rattle.hx_inferior.specs.Inferior.{IsPair};

use crate::dead_cells::dead;
use hx_board::{Cell, Colour, Position};

/// Whether two cells are a pair of a player: they are empty, and each is dead for the player after the player takes the
/// other.
pub fn pair(position: &Position, colour: Colour, a: Cell, b: Cell) -> bool
    ensures { IsTrue result ↔ IsPair position.now colour a b }
{
    let empties = position.empties();
    let a_empty = empties.has(a);
    if !a_empty {
        return false;
    }
    let b_empty = empties.has(b);
    if !b_empty {
        return false;
    }
    let with_a = position.with(colour, a);
    let with_b = position.with(colour, b);
    dead(&with_b, colour, a) && dead(&with_a, colour, b)
}
