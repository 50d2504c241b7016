//! The full search of a position: first who wins, and then the nodes that prove it.

ghost use Rattle.std.specs.Prelude.{◌≤◌, IfOk};
ghost use Rattle.hx_board.specs.Counts.{empty_count};
ghost use Rattle.hx_sweep.specs.Sweeps.{IsSweep};

use crate::nodes::prove;
use crate::winners::winner;
use hx_board::{Colour, Memory, Position};
use hx_tree::Node;
use std::alloc::Global;

/// The tree of a full search of a position with this mover: a valid tree by moves alone that has the position with this
/// mover at its root. Fails only where memory is wanting.
///
/// At most nine cells may be empty, since with n of them the search may take n times as long as with n - 1. With nine
/// the tree has 986,410 nodes at the most.
pub fn sweep(alloc: Global, position: &Position, to_move: Colour) -> Result<Vec<Node>, Memory>
    requires { empty_count position.now ≤ 9 }
    ensures { IfOk result (λ nodes. IsSweep position.now to_move nodes.items) }
{
    // The proof takes from here that the position's board is one.
    let _size = position.size();
    let mut played = *position;
    let won_by = winner(&mut played, to_move);
    let mut nodes = Vec::new(alloc);
    prove(&mut nodes, &mut played, to_move, won_by)?;
    Ok(nodes)
}
