//! Widened positions: a proof of a player's needs few of the empty cells, and the opponent's stones may be on all
//! others.
//!
//! What a proof needs is a guess here. Nothing is promised of these positions: who stores a proof at one has it judged
//! by the checker, or looks up there what makes it right. The cells that an entry needs are the empty ones of its
//! position, and no table keeps them.

use hx_board::{Colour, Mask, Position, Size};

/// The position with these stones of a player and of the opponent.
fn placed(size: Size, player: Colour, own: Mask, others: Mask) -> Option<Position> {
    match player {
        Colour::Black => Position::from_masks(size, own, others),
        Colour::White => Position::from_masks(size, others, own),
    }
}

/// The position with the opponent's stones on all empty cells but these.
pub(crate) fn widened(position: &Position, winner: Colour, needed: Mask) -> Option<Position> {
    let more = position.empties().minus(needed);
    let others = position.stones(winner.other()).union(more);
    placed(position.size(), winner, position.stones(winner), others)
}

/// The position without a player's stones on these cells.
pub(crate) fn lifted(position: &Position, player: Colour, cells: Mask) -> Option<Position> {
    let own = position.stones(player).minus(cells);
    let others = position.stones(player.other());
    placed(position.size(), player, own, others)
}
