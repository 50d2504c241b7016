//! Which cells touch one another.
//!
//! The cells are hexagons, and each row is shifted half a cell to the right of the one above. So a cell touches the
//! two beside it, the one above and the one after that, the one below and the one before that.

ghost use Rattle.std.specs.Prelude.{◌≡◌, ℕ, ◌+◌, ◌*◌, ◌<◌, ◌≤◌, ◌++◌, ◌↔◌, IsTrue, Contains};
ghost use Rattle.arrayvec.specs.ArrayVec.{array_vec_len};
ghost use Rattle.hx_board.specs.Cells.{OnBoard, CellsTouch, kept, index_of, neighbours_of};

use crate::cells::{CELLS, Cell};
use crate::sizes::Size;
use arrayvec::ArrayVec;

/// The cells of the board that touch a cell, each once, in this order: left, right, above, below, above to the
/// right, below to the left. A cell inside the board has six, a cell on its border fewer.
pub fn neighbours(size: Size, cell: Cell) -> ArrayVec<Cell, 6>
    requires { OnBoard size cell }
    ensures ordered { result.items ≡ neighbours_of size cell }
    ensures touching { (other : ℕ)
        → Contains result.items other ↔ (OnBoard size other × CellsTouch cell other) }
{
    let row = cell.row();
    let col = cell.col();
    let has_left = 0 < col;
    let has_right = col + 1 < size.cols();
    let has_above = 0 < row;
    let has_below = row + 1 < size.rows();
    let left = col.saturating_sub(1);
    let above = row.saturating_sub(1);
    let mut found = ArrayVec::new();
    push_if(&mut found, has_left, row, left);
    push_if(&mut found, has_right, row, col + 1);
    push_if(&mut found, has_above, above, col);
    push_if(&mut found, has_below, row + 1, col);
    push_if(&mut found, has_above && has_right, above, col + 1);
    push_if(&mut found, has_below && has_left, row + 1, left);
    found
}

/// Adds the cell in this row and column where it is there.
fn push_if(found: &mut ArrayVec<Cell, 6>, is_there: bool, row: u8, col: u8)
    requires room { array_vec_len found.old < 6 }
    requires small { IsTrue is_there → 11 * row + col < CELLS }
    ensures items { found.new.items ≡ found.old.items ++ kept is_there (index_of row col) }
    ensures len { array_vec_len found.new ≤ array_vec_len found.old + 1 }
{
    if is_there {
        found.push(Cell::at_index(11 * row + col));
    }
}
