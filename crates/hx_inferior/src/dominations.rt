//! Cells that another one is better than, so that a player who moves need not try them.
//!
//! Where the mover takes the better cell, the worse one is killed: it is dead for the opponent, who can make nothing of
//! it, or it is one of a captured pair of the mover. So the better cell gives the mover as much as both, and so at
//! least as much as the worse one alone. Hayward, van Rijswijck, Arneson and Henderson call the worse cell dominated.

ghost use Rattle.std.specs.Prelude.{◌↔◌, IsTrue};
ghost use Rattle.hx_inferior.specs.Inferior.{IsKilled, IsDominated};

use crate::dead_cells::dead;
use crate::pairs::pair;
use hx_board::{Cell, Colour, Position};

/// How a move of a player kills a cell: it is dead for the opponent, or a captured pair of the player with the named
/// one.
#[derive(Clone, Copy, PartialEq, Eq, Debug)]
pub enum Kill {
    ByDead,
    ByPair(Cell),
}

/// Whether a cell is killed, on the board after the mover's move.
fn is_killed(position: &Position, mover: Colour, worse: Cell, kill: &Kill) -> bool
    ensures { IsTrue result ↔ IsKilled position.now mover worse kill.now }
{
    match kill {
        Kill::ByDead => dead(position, mover.other(), worse),
        Kill::ByPair(partner) => pair(position, mover, worse, *partner),
    }
}

/// Whether the mover need not try the worse cell where it tries the better one: the better one is empty, and after the
/// mover takes it, the worse one is dead for the opponent or, with the named cell, a pair of the mover.
pub fn dominates(position: &Position, mover: Colour, better: Cell, worse: Cell, kill: Kill) -> bool
    ensures { IsTrue result ↔ IsDominated position.now mover better worse kill }
{
    let is_empty = position.empties().has(better);
    if !is_empty {
        return false;
    }
    let next = position.with(mover, better);
    is_killed(&next, mover, worse, &kill)
}
