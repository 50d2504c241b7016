//! Nodes that are whole with their first line: those by the rules chain, move and turned. The reader takes such a line
//! where it stands and changes two numbers of its place: to move the place out and back took more than a quarter of the
//! time.

ghost use Rattle.std.specs.Prelude.{◌≡◌, ◌<◌, IfSome, IfNone};
ghost use Rattle.hx_text.specs.Lengths.{most_nodes};
ghost use Rattle.hx_parse.specs.Places.{HasOneMore, IsWhole, TakesNode};

use crate::head_lines::read_head;
use crate::so_far::SoFar;
use hx_text::{Head, Opening};
use hx_tree::{MOST_NODES, Node, Rule};

/// Where the word of the rule begins in a node's first line: behind `node`, two masks and two players, whose words have
/// five letters each.
const RULE: usize = 83;

/// The node that a first line tells whole. None where entries may follow.
pub(crate) fn whole_node(head: &Head) -> Option<Node>
    ensures { IfSome result (IsWhole head.now) }
{
    let heading = head.heading;
    let rule = match head.opening {
        Opening::Chain => Rule::Chain,
        Opening::Move { cell, child } => Rule::Move { cell, child },
        Opening::Turned { child } => Rule::Turned { child },
        _ => return None,
    };
    Some(Node { heading, rule })
}

/// Takes the first line of a node that is whole with it, and hands the node out. None where it did not; then all is as
/// it was.
pub(crate) fn take_node(so_far: &mut SoFar, line: &[u8]) -> Option<Node>
    ensures yes { IfSome result (TakesNode so_far.old line.now so_far.new) }
    ensures no { IfNone result (so_far.new ≡ so_far.old) }
{
    if !may_be_whole(line) || so_far.count >= MOST_NODES {
        return None;
    }
    let Some(head) = read_head(&so_far.preamble, line) else {
        return None;
    };
    let Some(node) = whole_node(&head) else {
        return None;
    };
    add(so_far, &node);
    Some(node)
}

/// Whether the word of the rule begins as one that no entries follow, so that a line is not read twice for nothing.
fn may_be_whole(line: &[u8]) -> bool {
    matches!(line.get(RULE), Some(b'c' | b'm' | b't'))
}

/// Counts one more node.
fn add(so_far: &mut SoFar, node: &Node)
    requires { so_far.old.count < most_nodes }
    ensures { HasOneMore so_far.old node.now so_far.new }
{
    so_far.count += 1;
    so_far.winner = Some(node.heading.winner);
}
