//! Who wins a position, by trying the moves of each player to the end of the game.
//!
//! The stones are played and lifted on one position, which is afterwards as it was before, so that no try copies a
//! board. A chain of either player ends a try at once, and so does the first move, in cell order, with which the mover
//! wins.

ghost use Rattle.std.specs.Prelude.{◌≡◌, ℕ, MatchOption};
ghost use Rattle.hx_board.specs.Positions.{IsEmpty};
ghost use Rattle.hx_board.specs.Game.{Wins};
ghost use Rattle.hx_sweep.specs.Tries.{IsRefuted, IsFirstWinningMove};

use hx_board::{Cell, Colour, Position, chain};
use hx_cells::each_cell;

/// Who wins the position with this mover, by trying all moves. It takes no memory, and as long as a full search. The
/// position is as it was.
#[cycle(winners)]
pub fn winner(position: &mut Position, to_move: Colour) -> Colour
    ensures kept { position.new ≡ position.old }
    ensures wins { Wins result position.old to_move }
{
    // The proof takes from here that the position's board is one.
    let _size = position.size();
    if chain(position, Colour::Black) {
        return Colour::Black;
    }
    if chain(position, Colour::White) {
        return Colour::White;
    }
    match winning_move(position, to_move) {
        Some(_) => to_move,
        None => to_move.other(),
    }
}

/// The first move, in cell order, with which the mover wins. None exactly where the opponent wins after each move.
#[cycle(winners)]
pub(crate) fn winning_move(position: &mut Position, to_move: Colour) -> Option<Cell>
    ensures kept { position.new ≡ position.old }
    ensures first { MatchOption result
        ((cell : ℕ) → IsEmpty position.old cell → IsRefuted position.old to_move cell)
        (IsFirstWinningMove position.old to_move) }
{
    let size = position.size();
    for cell in each_cell(position.empties(), size) {
        position.play(to_move, cell);
        let found = winner(position, to_move.other());
        position.lift(cell);
        if found == to_move {
            return Some(cell);
        }
    }
    None
}
