//! The nodes of the positions after the move, from the end of the way back up to its first node.
//!
//! The winner's own fill steps stay right after a further stone of his, and the opponent's fill any cell that is empty.
//! So what leads from a position to another leads, with the stone on both, from the one to the other too.

use crate::moves::{WinningMove, linked_move};
use crate::paths::{End, Leads, Passed, Path};
use hx_board::{Cell, Colour, Position};
use hx_link::Steps;
use hx_packed::Entry;
use hx_tree::{Heading, Node, Rule};
use hx_turn::turned;
use std::alloc::Global;

/// A move of the winner's, and the node of the position after it.
#[derive(Drop)]
struct Named {
    cell: Cell,
    position: Position,
    child: u32,
}

/// How far the way up has come: the move at the node where it is, and the nodes that were made for it.
#[derive(Drop)]
struct Begun {
    named: Named,
    made: Vec<Node>,
}

/// A move of the winner's from the first position of the way, the nodes that prove what is after it, in their order,
/// and the place of the last one, or of a node that is there.
#[derive(Drop)]
pub(crate) struct Found {
    pub(crate) cell: Cell,
    pub(crate) child: u32,
    pub(crate) nodes: Vec<Node>,
}

/// What the way down leads to. The nodes are to stand behind those that are there.
pub(crate) fn found_by(
    alloc: Global,
    nodes: &[Entry],
    winner: Colour,
    path: Path,
) -> Option<Found> {
    let Path { passed, end } = path;
    match begun_at(alloc, nodes, &end) {
        Some(begun) => back_up(nodes, winner, passed, begun),
        None => None,
    }
}

/// The way up from its last node to its first one.
fn back_up(
    nodes: &[Entry],
    winner: Colour,
    mut passed: Vec<Passed>,
    mut begun: Begun,
) -> Option<Found> {
    while let Some(above) = passed.pop() {
        if !step_up(nodes, winner, above, &mut begun) {
            return None;
        }
    }
    let Begun { named, made } = begun;
    Some(Found {
        cell: named.cell,
        child: named.child,
        nodes: made,
    })
}

/// The way up from one node to the one above it. False where that is not to be had.
fn step_up(nodes: &[Entry], winner: Colour, above: Passed, begun: &mut Begun) -> bool {
    let Some(child) = place_behind(nodes, begun.made.as_slice()) else {
        return false;
    };
    let Some(found) = node_above(above, winner, &begun.named) else {
        return false;
    };
    begun.named = named_by(&found, child);
    let node = node_of(found);
    put(&mut begun.made, node)
}

/// Where the way up begins. Where the way down ends by links a node is made for the position after the move.
fn begun_at(alloc: Global, nodes: &[Entry], end: &End) -> Option<Begun> {
    match end {
        End::Move { cell, child } => begun_by_move(alloc, nodes, *cell, *child),
        End::Links { heading, steps } => begun_by_links(alloc, nodes, heading, steps),
    }
}

/// The beginning at a node by a move.
fn begun_by_move(alloc: Global, nodes: &[Entry], cell: Cell, child: u32) -> Option<Begun> {
    let entry = nodes.get(child as usize)?;
    let position = entry.heading().position;
    Some(Begun {
        named: Named {
            cell,
            position,
            child,
        },
        made: Vec::new(alloc),
    })
}

/// The beginning at a node by links.
fn begun_by_links(
    alloc: Global,
    nodes: &[Entry],
    heading: &Heading,
    steps: &Steps,
) -> Option<Begun> {
    let child = place_behind(nodes, &[])?;
    let found = linked_move(alloc, heading, steps.items())?;
    let named = named_by(&found, child);
    let node = node_of(found);
    let mut made = Vec::new(alloc);
    if !put(&mut made, node) {
        return None;
    }
    Some(Begun { named, made })
}

/// The move as it is named, where its node is to stand at this place.
fn named_by(found: &WinningMove, child: u32) -> Named {
    Named {
        cell: found.cell,
        position: found.node.heading.position,
        child,
    }
}

/// The node of the position after the move.
fn node_of(found: WinningMove) -> Node {
    found.node
}

/// Puts a node behind those that were made. False where memory is wanting.
fn put(made: &mut Vec<Node>, node: Node) -> bool {
    made.push(node).is_ok()
}

/// The place of the next node that is made.
fn place_behind(nodes: &[Entry], made: &[Node]) -> Option<u32> {
    let place = nodes.len().checked_add(made.len())?;
    u32::try_from(place).ok()
}

/// The move of the winner's at a node of the way, and the node of the position after it, where the one below is named.
fn node_above(passed: Passed, winner: Colour, below: &Named) -> Option<WinningMove> {
    let Passed { position, leads } = passed;
    let child = below.child;
    let (cell, rule) = match leads {
        Leads::Fill(steps) => (below.cell, Rule::Fill { steps, child }),
        Leads::Turned => {
            let cell = stone_more(&position, &turned(&below.position), winner)?;
            (cell, Rule::Turned { child })
        }
    };
    let is_empty = position.empties().has(cell);
    if !is_empty {
        return None;
    }
    let heading = Heading {
        position: position.with(winner, cell),
        to_move: winner.other(),
        winner,
    };
    let node = Node { heading, rule };
    Some(WinningMove { cell, node })
}

/// A cell on which a player has a stone after, and none before.
fn stone_more(before: &Position, after: &Position, player: Colour) -> Option<Cell> {
    let more = after.stones(player).minus(before.stones(player));
    more.least(before.size())
}
