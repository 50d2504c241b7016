//! The checker of a whole tree. It judges the nodes in order and keeps their headings, which is all that a later node
//! can refer to.

ghost use Rattle.std.specs.Prelude.{◌<◌, ◌^◌, length, IfOk};
ghost use Rattle.hx_tree.specs.Trees.{IsVerdict};

use crate::nodes::{Heading, Node};
use crate::rules::check_node;
use hx_board::Memory;
use std::alloc::Global;

/// What the checker says of a list of nodes.
#[derive(Clone, Copy, PartialEq, Eq, Debug)]
pub enum Verdict {
    /// It is a valid tree.
    Yes,

    /// The node at this place is not right, and each node before it is.
    Node(u32),

    /// It has no node.
    Empty,
}

/// Judges a list of nodes.
pub fn check_tree(alloc: Global, nodes: &[Node]) -> Result<Verdict, Memory>
    requires { length nodes.now < 2 ^ 32 }
    ensures verdict { IfOk result (IsVerdict nodes.now) }
{
    let mut before: Vec<Heading> = Vec::with_capacity(alloc, nodes.len()).map_err(|_| Memory)?;
    for (place, node) in nodes.iter().enumerate() {
        if !check_node(alloc, before.as_slice(), node)? {
            return Ok(Verdict::Node(place as u32));
        }
        before.push_reserved(node.heading);
    }
    if nodes.is_empty() {
        Ok(Verdict::Empty)
    } else {
        Ok(Verdict::Yes)
    }
}
