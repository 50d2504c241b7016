//! What holds of all solutions of one position. The function does nothing; what it says stands in its contract.

ghost use Rattle.hx_solve.specs.Solutions.{IsSolution, NameOneWinner};

use hx_board::{Colour, Position};
use hx_proof::tree_sound;
use hx_tree::Node;

/// Trees that solve one position and mover name the same winner, whatever the settings that they were found with.
pub fn same_winner(position: &Position, to_move: Colour, one: &[Node], other: &[Node])
    requires one { IsSolution position.now to_move one.now }
    requires other { IsSolution position.now to_move other.now }
    ensures { NameOneWinner one.now other.now }
{
    tree_sound(one);
    tree_sound(other);
}
