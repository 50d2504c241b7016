//! What holds of all openings of a board. These functions do nothing; what they say stands in their contracts.

ghost use Rattle.std.specs.Prelude.{ℕ, ◌↔◌};
ghost use Rattle.hx_board.specs.Cells.{OnBoard};
ghost use Rattle.hx_board.specs.Counts.{IsSmall};
ghost use Rattle.hx_openings.specs.Openings.{opening, HaveOneWinner, IsWonByAnOpening, OpeningsAreSmall};

use hx_board::{Cell, Position, Size};

/// After an opening on a cell and after one on the turned cell the same player wins. So a survey of all openings of a
/// board has to look at half of them.
pub fn openings_turned(size: Size, cell: Cell)
    requires { OnBoard size cell }
    ensures { HaveOneWinner size cell }
{
    // The proof takes from here that the board is one.
    let empty = Position::empty(size);
    let _size = empty.size();
}

/// Black wins the empty board with the move exactly where Black wins after some opening.
pub fn first_player(size: Size)
    ensures { IsWonByAnOpening size }
{
    // The proof takes from here that the board is one.
    let empty = Position::empty(size);
    let _size = empty.size();
}

/// All openings of a board are small under a budget, or none is, since as many cells are empty after one as after
/// another: it goes by the numbers of rows and columns and by the budget.
pub fn openings_small(size: Size, budget: u64)
    ensures { (cell : ℕ) → OnBoard size cell
        → IsSmall (opening size cell) budget ↔ OpeningsAreSmall size budget }
{
    // The proof takes from here that the board is one.
    let empty = Position::empty(size);
    let _size = empty.size();
}
