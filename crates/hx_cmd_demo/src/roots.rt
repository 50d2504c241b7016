//! The winner that a tree names where the checker accepts it.

ghost use Rattle.std.specs.Prelude.{◌<◌, ◌^◌, length, IfOk};
ghost use Rattle.hx_cmd_demo.specs.Roots.{TellsWinner};

use hx_board::{Colour, Memory};
use hx_finish::root_winner;
use hx_tree::{Node, Verdict, check_tree};
use std::alloc::Global;

/// The winner of the root of nodes that the checker accepts as a tree, and none of nodes that it refuses.
pub(crate) fn winner_by_check(alloc: Global, nodes: &[Node]) -> Result<Option<Colour>, Memory>
    requires { length nodes.now < 2 ^ 32 }
    ensures { IfOk result (TellsWinner nodes.now) }
{
    match check_tree(alloc, nodes) {
        Ok(Verdict::Yes) => Ok(Some(root_winner(nodes))),
        Ok(Verdict::Node(_) | Verdict::Empty) => Ok(None),
        Err(Memory) => Err(Memory),
    }
}
