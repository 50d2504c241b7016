//! The checker of one node. It knows the node and the headings of the nodes before it, and nothing of how they were
//! found.

ghost use Rattle.std.specs.Prelude.{◌≡◌, ◌↔◌, IsTrue, IsOk, IfOk, []};
ghost use Rattle.hx_tree.specs.Rules.{IsRightMove, IsRightNode, steps_of};

use crate::answers::check_all;
use crate::fills::check_fill;
use crate::headings::leads;
use crate::nodes::{Heading, Node, Rule};
use crate::steps::check_links;
use crate::turns::check_turned;
use hx_board::{Cell, Memory, chain};
use std::alloc::Global;

/// Whether a node is right after these headings. It takes memory for the links of its steps alone, which it lets go
/// again.
pub fn check_node(alloc: Global, before: &[Heading], node: &Node) -> Result<bool, Memory>
    ensures answers { steps_of node.now.rule ≡ [] → IsOk result }
    ensures right { IfOk result (λ answer. IsTrue answer ↔ IsRightNode before.now node.now) }
{
    let heading = &node.heading;
    // The proof takes from here that the position's board is one.
    let _size = heading.position.size();
    match &node.rule {
        Rule::Chain => Ok(chain(&heading.position, heading.winner)),
        Rule::Links { steps } => check_links(alloc, heading, steps.items()),
        Rule::Move { cell, child } => Ok(check_move(before, heading, *cell, *child)),
        Rule::All {
            steps,
            threats,
            lines,
        } => check_all(alloc, before, heading, steps, threats, lines),
        Rule::Fill { steps, child } => Ok(check_fill(before, heading, steps.items(), *child)),
        Rule::Turned { child } => Ok(check_turned(before, heading, *child)),
    }
}

/// Whether the winner moves to an empty cell, and wins after that by an earlier node.
fn check_move(before: &[Heading], heading: &Heading, cell: Cell, child: u32) -> bool
    ensures { IsTrue result ↔ IsRightMove before.now heading.now cell child }
{
    if heading.to_move != heading.winner {
        return false;
    }
    if !heading.position.empties().has(cell) {
        return false;
    }
    leads(before, heading, heading.winner, cell, child)
}
