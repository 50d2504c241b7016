//! Small positions are solved by a full search whatever the workers come to.

ghost use Rattle.std.specs.Prelude.{◌≤◌, IfOk, IfErr};
ghost use Rattle.hx_board.specs.Counts.{empty_count};
ghost use Rattle.hx_tree.specs.Plain.{ArePlain};
ghost use Rattle.hx_solve.specs.Solutions.{IsSolution};
ghost use Rattle.hx_limits.specs.Causes.{LacksMemory};

use hx_board::{Colour, Position};
use hx_limits::RanOut;
use hx_sweep::sweep;
use hx_tree::Node;
use std::alloc::Global;

/// The tree of a full search.
pub(crate) fn by_sweep(
    alloc: Global,
    position: &Position,
    to_move: Colour,
) -> Result<Vec<Node>, RanOut>
    requires { empty_count position.now ≤ 9 }
    ensures tree { IfOk result (λ tree. IsSolution position.now to_move tree.items) }
    ensures plain { IfOk result (λ tree. ArePlain tree.items) }
    ensures memory { IfErr result LacksMemory }
{
    Ok(sweep(alloc, position, to_move)?)
}
