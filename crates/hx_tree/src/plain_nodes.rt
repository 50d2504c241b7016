//! Nodes that tell what to play. From a chain, from links, from a move and from an answer to each move a player can
//! take the next move; a fill step and a line by a better cell only say that there is one.

ghost use Rattle.std.specs.Prelude.{◌↔◌, IsTrue};
ghost use Rattle.hx_tree.specs.Plain.{AreChildLines, IsPlain};

use crate::nodes::{Line, Node, Rule};

/// Whether a node is by a chain, by links, by a move, or by answers that are all children.
pub fn plain(node: &Node) -> bool
    ensures { IsTrue result ↔ IsPlain node.now }
{
    match &node.rule {
        Rule::Chain => true,
        Rule::Links { .. } => true,
        Rule::Move { .. } => true,
        Rule::All { lines, .. } => have_children(lines.items()),
        Rule::Fill { .. } => false,
        Rule::Turned { .. } => false,
    }
}

/// Whether each line has a child.
fn have_children(lines: &[Line]) -> bool
    ensures { IsTrue result ↔ AreChildLines lines.now }
{
    for line in lines {
        if let Line::Under { .. } = line {
            return false;
        }
    }
    true
}
