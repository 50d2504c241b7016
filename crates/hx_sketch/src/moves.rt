//! The zone of a move: that of the position after it, but for the move's stone, which is not there yet. Where that zone
//! needs the stone, the stone's cell is to be free; else the zone is the same.
//!
//! It is enough: where the cell is empty the mover puts the stone there, and then the zone after the move serves. Where
//! the mover has the stone already, or that zone does not need it, that zone serves after any move of the mover's,
//! since it forbids a stone of the opponent's alone.

ghost use Rattle.hx_board.specs.Positions.{IsEmpty};

use hx_board::{Cell, Colour, Position};
use hx_zones::{Kind, Zone, Zones};

/// Keeps the zone of a player's move, where one says that the player wins after it. Whether one does.
pub(crate) fn draft_move(zones: &Zones, position: &Position, to_move: Colour, cell: Cell) -> bool
    requires { IsEmpty position.now cell }
{
    let next = position.with(to_move, cell);
    let after = Kind {
        to_move: to_move.other(),
        winner: to_move,
    };
    let Some(there) = zones.serving(&next, after) else {
        return false;
    };
    let zone = if there.needed.has(cell) {
        Zone {
            needed: there.needed.without(cell),
            free: there.free.with(cell),
        }
    } else {
        there
    };
    let kind = Kind {
        to_move,
        winner: to_move,
    };
    zones.keep(kind, &zone);
    true
}
