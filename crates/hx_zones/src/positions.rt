//! Positions made of a player's stones and the opponent's.

use hx_board::{Colour, Mask, Position, Size};

/// The position with these stones of a player and of the opponent. None where a cell would have both.
pub fn placed(size: Size, player: Colour, own: Mask, others: Mask) -> Option<Position> {
    match player {
        Colour::Black => Position::from_masks(size, own, others),
        Colour::White => Position::from_masks(size, others, own),
    }
}

/// The position with the opponent's stones on all empty cells but these.
pub fn widened(position: &Position, winner: Colour, free: Mask) -> Option<Position> {
    let more = position.empties().minus(free);
    let others = position.stones(winner.other()).union(more);
    placed(position.size(), winner, position.stones(winner), others)
}
