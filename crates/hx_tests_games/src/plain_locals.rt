//! The local game once more, said as plainly as it can be, for the tests to compare `local` with: joining by walks from
//! vertex to vertex and not by groups, each order of the moves played to its end, and nothing kept of what was found.

use hx_board::{CELLS, Colour, Mask, Position, Vertex};
use hx_test_support::joined_to;

/// A player wants two vertices joined by moves to the cells of a carrier.
#[derive(Clone, Copy, Debug)]
pub(crate) struct LocalGame {
    pub player: Colour,
    pub a: Vertex,
    pub b: Vertex,
    pub carrier: Mask,
}

/// Whether the player has the local game with this mover: the ends are joined; or the player moves, and has it after
/// some move; or the opponent has a move, and after each of them the player has it. A game of more than `moves` moves
/// counts as lost.
pub(crate) fn plain_local(game: &LocalGame, position: &Position, mover: Colour, moves: u8) -> bool {
    if joined_to(position, game.player, &game.a).has(game.b) {
        return true;
    }
    if moves == 0 {
        return false;
    }
    let is_own_move = mover == game.player;
    let mut has_move = false;
    for index in 0..CELLS as u8 {
        if let Some(cell) = position.size().cell(index / 11, index % 11)
            && game.carrier.has(cell)
            && position.empties().has(cell)
        {
            let next = position.with(mover, cell);
            let is_had = plain_local(game, &next, mover.other(), moves - 1);
            // One move with which he has it is enough for the player, one with which he has not for the opponent.
            if is_had == is_own_move {
                return is_had;
            }
            has_move = true;
        }
    }
    has_move && !is_own_move
}
