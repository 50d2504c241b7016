//! The cells of a set, one by one.

ghost use Rattle.std.specs.Prelude.{◌≡◌, ℕ, List};
ghost use Rattle.std.specs.Iterator.{Drains};
ghost use Rattle.hx_cells.specs.CellsLeft.{AreCells, GivesCell};

use hx_board::{Cell, Mask, Size};
use std::marker::Model;

/// The cells of a board that are in a set, in rising order of their indexes. Contracts see it as what is left of the
/// set.
#[derive(Drop)]
pub struct CellIter {
    size: Size,
    left: Mask,
}

impl Model for CellIter {
    ghost use Rattle.hx_cells.specs.CellsLeft.{CellsLeft};

    ghost Value = { CellsLeft };

    ghost view = { λ c. record { size = c.size; cells = c.left } };
}

/// Each cell of a board of this size that is in a set, once and in rising order of the index, and no other.
#[inline(always)]
pub fn each_cell(set: Mask, size: Size) -> CellIter
    ensures left { result ≡ record { size = size; cells = set } }
    ensures each { (cells : List ℕ) → Drains GivesCell result cells → AreCells size set cells }
{
    CellIter { size, left: set }
}

impl Iterator for CellIter {
    ghost use Rattle.std.specs.Iterator.{at_most};
    ghost use Rattle.hx_cells.specs.CellsLeft.{GivesCell};

    type Item = Cell;

    ghost next_gives = { GivesCell };

    ghost remaining = { λ left. at_most left.cells };

    #[inline(always)]
    fn next(&mut self) -> Option<Cell> {
        let cell = self.left.least(self.size)?;
        self.left = self.left.without(cell);
        Some(cell)
    }
}
