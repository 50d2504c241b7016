//! The first cell of a board in a set of cells.
//!
//! It stands apart from the sets, of which none has a board, and above the sizes, whose cells are sets.

ghost use Rattle.std.specs.Prelude.{◌≡◌, ℕ, false, MatchOption};
ghost use Rattle.hx_board.specs.Cells.{OnBoard, IsLeastOn};
ghost use Rattle.hx_board.specs.Sets.{has};

use crate::cells::Cell;
use crate::masks::Mask;
use crate::sizes::Size;

impl Mask {
    /// The first cell of a board of this size that is in the set, row by row from the top and from the left in each
    /// row. None exactly where no cell of the board is in the set.
    pub fn least(self, size: Size) -> Option<Cell>
        ensures { MatchOption result ((n : ℕ) → OnBoard size n → has self n ≡ false)
            (IsLeastOn size self) }
    {
        let here = self.meet(size.all()).bits();
        if here == 0 {
            None
        } else {
            Some(Cell::at_index(here.trailing_zeros() as u8))
        }
    }
}
