//! The sizes of boards, from one to eleven rows and columns, and the sets of cells that a size fixes.
//!
//! These sets are wanted at each step of a search, so they come from one constant by shifts and without a loop.

ghost use Rattle.std.specs.Prelude.{◌≡◌, ℕ, ◌+◌, ◌*◌, ◌<◌, ◌≤◌, ◌↔◌, ◌&&◌, nat_lt, SomeIff, true};
ghost use Rattle.hx_board.specs.Finds.{Finds};
ghost use Rattle.hx_board.specs.Sets.{has};
ghost use Rattle.hx_board.specs.Cells.{OnBoard, IsExtent, index_of, row_of, col_of};
ghost use Rattle.hx_board.specs.VertexSets.{IsVertexAt};

use crate::cells::{CELLS, Cell};
use crate::masks::Mask;
use crate::vertices::{FIRST_CODE, LAST_CODE, Vertex};
use std::marker::Model;

/// The size of a board: how many rows it has, from 1 to 11, and how many columns, from 1 to 11.
#[derive(Clone, Copy, PartialEq, Eq, Debug)]
pub struct Size {
    rows: u8,
    cols: u8,
}

impl Model for Size {
    ghost use Rattle.hx_board.specs.Cells.{Extent, IsExtent};

    ghost Value = { Extent };

    ghost view = { λ s. record { rows = s.rows; cols = s.cols } };

    ghost invariant = { λ s. IsExtent s.rows s.cols };

    ghost inverse = { λ e. record { rows = e.rows; cols = e.cols } };
}

impl Size {
    /// The size with so many rows and columns. None exactly where one of the two numbers is outside 1 to 11.
    pub fn new(rows: u8, cols: u8) -> Option<Size>
        ensures { SomeIff result (IsExtent rows cols) (record { rows = rows; cols = cols }) }
    {
        if 1 <= rows && rows <= 11 && 1 <= cols && cols <= 11 {
            Some(Size { rows, cols })
        } else {
            None
        }
    }

    /// The number of rows, from 1 to 11.
    pub fn rows(self) -> u8
        ensures value { result ≡ self.rows }
        ensures valid { IsExtent self.rows self.cols }
    {
        self.rows
    }

    /// The number of columns, from 1 to 11.
    pub fn cols(self) -> u8
        ensures value { result ≡ self.cols }
        ensures valid { IsExtent self.rows self.cols }
    {
        self.cols
    }

    /// All cells of the board.
    pub fn all(self) -> Mask
        ensures cells { (cell : ℕ) → (has result cell ≡ true) ↔ OnBoard self cell }
        ensures valid { IsExtent self.rows self.cols }
    {
        block(self.rows, self.cols)
    }

    /// The cell in this row and column, which both count from 0. None exactly where it would lie off the board.
    pub fn cell(self, row: u8, col: u8) -> Option<Cell>
        ensures { SomeIff result ((row < self.rows) × (col < self.cols)) (index_of row col) }
    {
        if row < self.rows && col < self.cols {
            Some(Cell::at_index(11 * row + col))
        } else {
            None
        }
    }

    /// The vertex with this code, as `Vertex::code` tells it. None exactly where no vertex of the board has it.
    pub fn vertex(self, code: u8) -> Option<Vertex>
        ensures { Finds result (IsVertexAt self code) }
    {
        match code {
            FIRST_CODE => Some(Vertex::First),
            LAST_CODE => Some(Vertex::Last),
            index => match self.cell(index / 11, index % 11) {
                None => None,
                Some(cell) => Some(Vertex::Of(cell)),
            },
        }
    }
}

/// The cells of the first column, one in each of eleven rows.
const FIRST_COLUMN: u128 = 1
    | 1 << 11
    | 1 << 22
    | 1 << 33
    | 1 << 44
    | 1 << 55
    | 1 << 66
    | 1 << 77
    | 1 << 88
    | 1 << 99
    | 1 << 110;

/// The cells of the first columns, in all eleven rows.
///
/// Each row of a board has eleven binary digits of a set. The first column alone has a 1 at the row's lowest digit.
/// Moved up by `cols` digits and less what it was, that 1 becomes 2 ^ `cols` - 1, which is `cols` digits 1. As
/// there are at most eleven of these, each row keeps to its own digits.
fn first_columns(cols: u8) -> Mask
    requires { cols ≤ 11 }
    ensures { (n : ℕ) → n < CELLS → has result n ≡ nat_lt (col_of n) cols }
{
    Mask::of((FIRST_COLUMN << cols) - FIRST_COLUMN)
}

/// The cells of the first rows and columns. The cells of the first rows are the numbers below the index of the next
/// row.
pub(crate) fn block(rows: u8, cols: u8) -> Mask
    requires rows { rows ≤ 11 }
    requires cols { cols ≤ 11 }
    ensures { (n : ℕ) → has result n ≡ (nat_lt (row_of n) rows && nat_lt (col_of n) cols) }
{
    let first_rows = Mask::range(0, 11 * rows);
    first_rows.meet(first_columns(cols))
}
