//! Nodes that are added to a list of right nodes, each judged by the checker before.

ghost use Rattle.std.specs.Prelude.{◌≡◌, ◌<◌, ◌≤◌, true, length, IfSome, IfNone, IfOk};
ghost use Rattle.hx_tree.specs.declared.checkers.TheConstants.{MOST_NODES};
ghost use Rattle.hx_tree.specs.Plain.{IsPlain};
ghost use Rattle.hx_tree.specs.Trees.{AreRight, headings_of};
ghost use Rattle.hx_naming.specs.Added.{IsMore, IsPushed};

use hx_board::Memory;
use hx_packed::{Entry, Offer};
use hx_tree::{Heading, MOST_NODES, Node, check_node, plain};
use std::alloc::Global;

/// The headings of nodes.
pub(crate) fn headings_of(alloc: Global, nodes: &[Entry]) -> Result<Vec<Heading>, Memory>
    ensures { IfOk result (λ headings. headings.items ≡ headings_of nodes.now) }
{
    let Ok(mut headings) = Vec::with_capacity(alloc, nodes.len()) else {
        return Err(Memory);
    };
    for entry in nodes {
        if headings.push(*entry.heading()).is_err() {
            return Err(Memory);
        }
    }
    Ok(headings)
}

/// Adds these nodes behind the others, one after the other, as long as each is right there, and answers whether all
/// were added.
pub(crate) fn add_all(
    alloc: Global,
    nodes: &mut Vec<Entry>,
    headings: &mut Vec<Heading>,
    must_be_plain: bool,
    more: Vec<Node>,
) -> bool
    requires right { AreRight nodes.old.items }
    requires few { length nodes.old.items ≤ MOST_NODES }
    requires headings { headings.old.items ≡ headings_of nodes.old.items }
    ensures more { IsMore must_be_plain nodes.old.items nodes.new.items }
    ensures all { result ≡ true → headings.new.items ≡ headings_of nodes.new.items }
{
    for node in more {
        if add(alloc, nodes, headings, must_be_plain, node).is_none() {
            return false;
        }
    }
    true
}

/// Adds a node behind the others, where it is right there and there is room, and answers its place. Where it must be
/// plain no other node is added.
pub(crate) fn add(
    alloc: Global,
    nodes: &mut Vec<Entry>,
    headings: &mut Vec<Heading>,
    must_be_plain: bool,
    node: Node,
) -> Option<u32>
    requires right { AreRight nodes.old.items }
    requires few { length nodes.old.items ≤ MOST_NODES }
    requires headings { headings.old.items ≡ headings_of nodes.old.items }
    ensures more { IsMore must_be_plain nodes.old.items nodes.new.items }
    ensures added { IfSome result (λ place.
        IsPushed nodes.old.items node place nodes.new.items headings.new.items) }
{
    if nodes.len() >= MOST_NODES as usize {
        return None;
    }
    if !is_plain_enough(must_be_plain, &node) {
        return None;
    }
    match check_node(alloc, headings.as_slice(), &node) {
        Ok(true) => push(nodes, headings, node),
        Ok(false) => None,
        Err(Memory) => None,
    }
}

/// Whether a node is plain, or need not be.
fn is_plain_enough(must_be_plain: bool, node: &Node) -> bool
    ensures { result ≡ true → must_be_plain ≡ true → IsPlain node.now }
{
    !must_be_plain || plain(node)
}

/// Puts a node behind the others, and answers its place. None where memory is wanting: then the list is as before.
fn push(nodes: &mut Vec<Entry>, headings: &mut Vec<Heading>, node: Node) -> Option<u32>
    requires few { length nodes.old.items < MOST_NODES }
    requires headings { headings.old.items ≡ headings_of nodes.old.items }
    ensures pushed { IfSome result (λ place.
        IsPushed nodes.old.items node place nodes.new.items headings.new.items) }
    ensures memory { IfNone result (nodes.new.items ≡ nodes.old.items) }
{
    let place = nodes.len() as u32;
    let heading = node.heading;
    let Ok(offer) = Offer::of(node) else {
        return None;
    };
    if headings.push(heading).is_err() {
        return None;
    }
    if nodes.push(offer.into_entry()).is_err() {
        return None;
    }
    Some(place)
}
