//! The cells that touch those of a set, found by shifts of the whole set.
//!
//! Neighbours' indexes lie fixed steps away, so four shifts find the neighbours of all cells of a set at once. What a
//! shift moves over the edge of the board is cut off by the board's own cells.

ghost use Rattle.std.specs.Prelude.{◌≡◌, ℕ, ◌+◌, ◌<◌, ◌↔◌, true};
ghost use Rattle.hx_board.specs.Sets.{has};
ghost use Rattle.hx_board.specs.Cells.{IsExtent, OnBoard, CellsTouch, col_of};
ghost use Rattle.hx_board.specs.Floods.{TouchesCellOf};

use crate::cells::Cell;
use crate::masks::Mask;
use crate::sizes::{Size, block};

/// The cells of the board that touch a cell, as a set.
pub fn neighbour_set(size: Size, cell: Cell) -> Mask
    requires { OnBoard size cell }
    ensures { (other : ℕ)
        → (has result other ≡ true) ↔ (OnBoard size other × CellsTouch cell other) }
{
    let all = size.all();
    around(size, all, left_cells(size), Mask::empty().with(cell))
}

/// The cells that touch a cell of a set. Of the six neighbours of a cell two lie to the right of it and of the cell
/// above it, and two to the left of it and of the cell below it, so two shifts sideways find these four.
pub(crate) fn around(size: Size, all: Mask, left: Mask, set: Mask) -> Mask
    requires extent { IsExtent size.rows size.cols }
    requires all { (cell : ℕ) → (has all cell ≡ true) ↔ OnBoard size cell }
    requires left { (cell : ℕ)
        → (has left cell ≡ true) ↔ (OnBoard size cell × (col_of cell + 1 < size.cols)) }
    ensures { (cell : ℕ) → (has result cell ≡ true) ↔ TouchesCellOf size set cell }
{
    let cells = set.meet(all);
    let above = cells.earlier(11);
    let below = cells.later(11);
    let to_right = cells.union(above).meet(left).later(1);
    let to_left = cells.union(below).earlier(1).meet(left);
    let straight = above.union(below);
    let sideways = to_right.union(to_left);
    straight.union(sideways).meet(all)
}

/// The cells that have a cell to their right.
pub(crate) fn left_cells(size: Size) -> Mask
    ensures { (cell : ℕ)
        → (has result cell ≡ true) ↔ (OnBoard size cell × (col_of cell + 1 < size.cols)) }
{
    block(size.rows(), size.cols() - 1)
}
