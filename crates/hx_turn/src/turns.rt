//! A position turned by 180 degrees.
//!
//! A cell's index is eleven times its row and its column on a board of every size. So the turned cell's index is that
//! of the board's last cell less the cell's own, and a whole set is turned by reversing it and moving it down.

ghost use Rattle.std.specs.Prelude.{◌≡◌, ℕ, true, ◌↔◌, IsTrue};
ghost use Rattle.hx_board.specs.Positions.{Board};
ghost use Rattle.hx_board.specs.Sets.{has};
ghost use Rattle.hx_board.specs.Cells.{OnBoard};
ghost use Rattle.hx_turn.specs.Turned.{turned_cell, IsTurned};

use crate::reversals::reversed;
use hx_board::{Cell, Colour, Mask, Position, Size};

/// The cells of the board to which those of a set come when the board is turned.
fn turned_set(size: Size, cells: Mask) -> Mask
    ensures { (cell : ℕ) → (has result cell ≡ true)
        ↔ (OnBoard size cell × (has cells (turned_cell size cell) ≡ true)) }
{
    let last = 11 * (size.rows() - 1) + (size.cols() - 1);
    Mask::of(reversed(cells.bits()) >> (127 - last)).meet(size.all())
}

/// The cell to which a cell of the board comes when the board is turned.
pub(crate) fn turned_cell(size: Size, cell: Cell) -> Cell
    requires { OnBoard size cell }
    ensures { result ≡ turned_cell size cell }
{
    let row = size.rows() - 1 - cell.row();
    let col = size.cols() - 1 - cell.col();
    match size.cell(row, col) {
        Some(there) => there,
        None => unreachable!(),
    }
}

/// The position turned by 180 degrees: on a board of R rows and C columns the cell in row r and column c holds what the
/// cell in row R - 1 - r and column C - 1 - c of the given position holds.
pub fn turned(position: &Position) -> Position
    ensures turned { IsTurned position.now result }
    ensures back { (twice : Board) → IsTurned result twice → twice ≡ position.now }
{
    let size = position.size();
    let black = turned_set(size, position.stones(Colour::Black));
    let white = turned_set(size, position.stones(Colour::White));
    match Position::from_masks(size, black, white) {
        Some(result) => result,
        None => unreachable!(),
    }
}

/// Whether the other position is this one turned by 180 degrees.
pub fn is_turned(position: &Position, other: &Position) -> bool
    ensures { IsTrue result ↔ IsTurned position.now other.now }
{
    let expected = turned(position);
    expected == *other
}
