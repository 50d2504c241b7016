//! Who wins, by trying each game to its end.

use crate::walks::has_chain;
use hx_board::{Colour, Position};

/// Whether the player wins the position with this mover: the player has a chain; or moves, and some move wins; or the
/// opponent has a move, and after each of them the player wins. A game of more than `moves` moves counts as lost.
pub fn wins(position: &Position, player: Colour, mover: Colour, moves: u8) -> bool {
    wins_by(&has_chain, position, player, mover, moves)
}

/// `wins`, where the given test says whether a player has a chain.
pub fn wins_by<F: Fn(&Position, Colour) -> bool>(
    has_chain: &F,
    position: &Position,
    player: Colour,
    mover: Colour,
    moves: u8,
) -> bool
    requires { F.IsAlwaysCallable has_chain.now }
{
    if has_chain(position, player) {
        return true;
    }
    if moves == 0 {
        return false;
    }
    let size = position.size();
    let is_own_move = mover == player;
    let mut is_won = !is_own_move && !position.empties().is_empty();
    for row in 0..size.rows() {
        for col in 0..size.cols() {
            // One move that wins is enough for the player, one that does not for the opponent.
            if is_won == is_own_move {
                return is_won;
            }
            if let Some(cell) = size.cell(row, col)
                && position.empties().has(cell)
            {
                let next = position.with(mover, cell);
                is_won = wins_by(has_chain, &next, player, mover.other(), moves - 1);
            }
        }
    }
    is_won
}
