//! What a turn keeps. These functions do nothing: what they say stands in their contracts.

ghost use Rattle.std.specs.Prelude.{◌≡◌};
ghost use Rattle.hx_board.specs.Positions.{Board};
ghost use Rattle.hx_turn.specs.Turned.{IsTurned, KeepsJoined, KeepsWinner};
ghost use Rattle.hx_turn.specs.Keys.{key_of};

use hx_board::{Colour, Position};

/// Vertices that are joined in a player's graph are joined on the turned board, with the player's sides exchanged, and
/// no others are.
pub fn turned_joins(position: &Position, colour: Colour)
    ensures { (turned : Board) → IsTurned position.now turned
        → KeepsJoined position.now colour turned }
{
    // The proof takes from here that the position's board is one.
    let _size = position.size();
}

/// A player wins a position, with a player to move, exactly where the player wins the turned one with the same player
/// to move.
pub fn turned_keeps(position: &Position, to_move: Colour, colour: Colour)
    ensures { (turned : Board) → IsTurned position.now turned
        → KeepsWinner position.now to_move colour turned }
{
    // The proof takes from here that the position's board is one.
    let _size = position.size();
}

/// A position and the turned one have one key, with the same player to move.
pub fn one_key(position: &Position, to_move: Colour)
    ensures { (turned : Board) → IsTurned position.now turned
        → key_of turned to_move ≡ key_of position.now to_move }
{
    // The proof takes from here that the position's board is one.
    let _size = position.size();
}
