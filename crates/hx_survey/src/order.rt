//! In which order openings are gone through. A worker's share comes in cell order; what is open then, from the middle
//! of the board to its edge. Those in the middle are the easiest, and what is proved of them serves those at the edge.
//!
//! With one worker the share is the whole board, so all openings come in cell order, which takes some units more than
//! to go from the middle. `.ci/units` has the units of three boards.

ghost use Rattle.std.specs.Prelude.{◌≡◌, ℕ, false, IfSome, MatchOption};
ghost use Rattle.hx_board.specs.Cells.{OnBoard, IsLeastOn};
ghost use Rattle.hx_board.specs.Sets.{has};
ghost use Rattle.hx_survey.specs.Orders.{IsAmong};

use hx_board::{Cell, Mask, Size};
use hx_cells::each_cell;

/// An order of cells.
#[derive(Clone, Copy)]
pub(crate) enum Order {
    /// Row after row, and each from its first cell to its last.
    OfCells,

    /// From the middle of the board to its edge.
    FromMiddle,
}

impl Order {
    /// The one of these cells that comes first. None exactly where no cell of the board is among them. Which one is the
    /// middlemost no clause says.
    pub(crate) fn first(self, size: Size, cells: Mask) -> Option<Cell>
        ensures among { MatchOption result
            ((n : ℕ) → OnBoard size n → has cells n ≡ false) (IsAmong size cells) }
        ensures least { self ≡ Order.OfCells → IfSome result (IsLeastOn size cells) }
    {
        match self {
            Order::OfCells => cells.least(size),
            Order::FromMiddle => middlemost(size, cells),
        }
    }
}

/// The cell of these that is nearest to the middle of the board, and of several the first. None exactly where no cell
/// of the board is among them.
fn middlemost(size: Size, cells: Mask) -> Option<Cell>
    ensures { MatchOption result
        ((n : ℕ) → OnBoard size n → has cells n ≡ false) (IsAmong size cells) }
{
    // The proof takes from here that the board is one, so that its cells are below 128.
    let _rows = size.rows();
    let mut middlemost = cells.least(size)?;
    for cell in each_cell(cells.without(middlemost), size) {
        if from_middle(size, cell) < from_middle(size, middlemost) {
            middlemost = cell;
        }
    }
    Some(middlemost)
}

/// How far a cell is from the middle of the board: how many half rows and half columns.
fn from_middle(size: Size, cell: Cell) -> u32 {
    let rows = (2 * u32::from(cell.row()) + 1).abs_diff(u32::from(size.rows()));
    let cols = (2 * u32::from(cell.col()) + 1).abs_diff(u32::from(size.cols()));
    rows + cols
}
