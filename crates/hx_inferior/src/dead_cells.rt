//! Dead cells.
//!
//! An empty cell is dead for a player where it joins nothing that is not joined without it: whoever has it, the same
//! chains can come. Hayward and van Rijswijck call a cell dead where no set of cells that wins needs it; this is the
//! part of that which the stones around a cell tell.

ghost use Rattle.std.specs.Prelude.{◌↔◌, IsTrue};
ghost use Rattle.hx_inferior.specs.Inferior.{IsDead};

use crate::open_neighbours::open_around;
use hx_board::{Cell, Colour, Position, all_joined};

/// Whether a cell is dead for a player: it is empty, and any two different neighbours of it in the player's graph that
/// are no stones of the opponent are joined. The player's sides are neighbours of the cells along them.
pub fn dead(position: &Position, colour: Colour, cell: Cell) -> bool
    ensures { IsTrue result ↔ IsDead position.now colour cell }
{
    let is_empty = position.empties().has(cell);
    if !is_empty {
        return false;
    }
    let around = open_around(position, colour, cell);
    // This makes no table: the checker asks of each position once or twice. hx_fill, which asks of all empty cells, has
    // one.
    all_joined(position, colour, around)
}
