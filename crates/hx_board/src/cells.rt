//! The cells of a board.
//!
//! A cell goes by one number, its index, which is eleven times its row plus its column on a board of every size. So the
//! same cell has the same index on two boards, and its neighbours' indexes lie fixed steps away. It may lie on a board
//! of one size and off a smaller one: `Size::cell` makes a cell of its board.

ghost use Rattle.std.specs.Prelude.{◌≡◌, ◌<◌};
ghost use Rattle.hx_board.specs.Cells.{row_of, col_of};

use std::marker::Model;

/// How many cells the largest board has. Each cell's index is below it.
pub const CELLS: usize = 121;

/// A cell, by its row and its column, which both count from 0 at the top left corner. Contracts see it as its index.
#[derive(Clone, Copy, PartialEq, Eq, Debug, Default)]
pub struct Cell {
    index: u8,
}

impl Model for Cell {
    ghost use Rattle.std.specs.Prelude.{ℕ, ◌<◌};

    ghost Value = { ℕ };

    ghost view = { λ c. c.index };

    ghost invariant = { λ c. c.index < 121 };

    ghost inverse = { λ n. record { index = n } };
}

impl Cell {
    /// The cell with this index.
    pub(crate) fn at_index(index: u8) -> Cell
        requires { index < 121 }
        ensures { result ≡ index }
    {
        Cell { index }
    }

    /// The row, from 0 at the top to 10.
    pub fn row(self) -> u8
        ensures value { result ≡ row_of self }
        ensures small { self < 121 }
    {
        self.index / 11
    }

    /// The column, from 0 at the left to 10.
    pub fn col(self) -> u8
        ensures value { result ≡ col_of self }
        ensures small { self < 121 }
    {
        self.index % 11
    }

    /// Eleven times the row plus the column, from 0 to 120. The cells of a board in cell order have rising indexes.
    pub fn index(self) -> u8
        ensures value { result ≡ self }
        ensures small { self < 121 }
    {
        self.index
    }
}
