//! The call that names a move.

ghost use Rattle.std.specs.Prelude.{◌≡◌, ◌<◌, ◌≤◌, length, slice_get, IfSome};
ghost use Rattle.hx_tree.specs.declared.checkers.TheConstants.{MOST_NODES};
ghost use Rattle.hx_tree.specs.Trees.{AreRight, headings_of};
ghost use Rattle.hx_tree.specs.Plain.{ArePlain};
ghost use Rattle.hx_naming.specs.Added.{IsGrown, HasHeadingOf};

use crate::added::{add, add_all, headings_of};
use crate::paths::path_from;
use crate::ways_up::found_by;
use hx_packed::Entry;
use hx_tree::{Heading, Node, Rule, plain};
use std::alloc::Global;

/// Adds nodes to a list of right nodes, so that one with the heading of the node at `root` names a winning move, and
/// tells its place. It is `root` where that node names one, where its mover does not win, or wins by a chain, at once
/// or after fill-in, where none was found, or where room or memory for the further nodes is wanting.
pub fn name_move(alloc: Global, nodes: &mut Vec<Entry>, root: u32) -> u32
    requires right { AreRight nodes.old.items }
    requires inside { root < length nodes.old.items }
    requires few { length nodes.old.items ≤ MOST_NODES }
    ensures right { AreRight nodes.new.items }
    ensures inside { result < length nodes.new.items }
    ensures few { length nodes.new.items ≤ MOST_NODES }
    ensures same_heading { slice_get (headings_of nodes.new.items) result
        ≡ slice_get (headings_of nodes.old.items) root }
    ensures plain { ArePlain nodes.old.items → ArePlain nodes.new.items }
{
    match named(alloc, nodes, root) {
        Some(place) => place,
        None => root,
    }
}

/// The place of a node that names a move, which was added. None where none was.
fn named(alloc: Global, nodes: &mut Vec<Entry>, root: u32) -> Option<u32>
    requires right { AreRight nodes.old.items }
    requires inside { root < length nodes.old.items }
    requires few { length nodes.old.items ≤ MOST_NODES }
    ensures grown { IsGrown nodes.old.items nodes.new.items }
    ensures same_heading { IfSome result (HasHeadingOf nodes.old.items root nodes.new.items) }
{
    let Ok(node) = nodes[root as usize].to_node(alloc) else {
        return None;
    };
    if !may_name(&node) {
        return None;
    }
    let heading = node.heading;
    let must_be_plain = plain(&node);
    let path = path_from(alloc, nodes.as_slice(), root)?;
    let found = found_by(alloc, nodes.as_slice(), heading.winner, path)?;
    let Ok(mut headings) = headings_of(alloc, nodes.as_slice()) else {
        return None;
    };
    if !add_all(alloc, nodes, &mut headings, must_be_plain, found.nodes) {
        return None;
    }
    let rule = Rule::Move {
        cell: found.cell,
        child: found.child,
    };
    add(
        alloc,
        nodes,
        &mut headings,
        must_be_plain,
        Node { heading, rule },
    )
}

/// Whether the mover wins, and the node names no move.
fn may_name(node: &Node) -> bool {
    if node.heading.winner != node.heading.to_move {
        return false;
    }
    !matches!(node.rule, Rule::Move { .. })
}
