//! A move after which links decide a position, as they do before it.

ghost use Rattle.hx_linkset.specs.LiveOf.{Decides};

use crate::cells::linked_cells;
use crate::sets::set_of;
use hx_board::{Cell, Colour, Memory, Vertex};
use hx_cells::each_cell;
use hx_link::{Kind, Step, Steps};
use hx_linkset::{Derived, LinkSet};
use hx_reach::{Reached, Workspace, decided, reach_with};
use hx_tree::{Heading, Node, Rule};
use std::alloc::Global;

/// A move of the winner's, and a node of the position after it.
#[derive(Drop)]
pub(crate) struct WinningMove {
    pub(crate) cell: Cell,
    pub(crate) node: Node,
}

/// A move of the winner's after which links decide, where steps decide the position. None where none was found.
pub(crate) fn linked_move(alloc: Global, heading: &Heading, steps: &[Step]) -> Option<WinningMove> {
    let set = set_of(alloc, &heading.position, heading.winner, steps)?;
    let Reached::Decided(index) = decided(&set, heading.to_move) else {
        return None;
    };
    let Ok(mut workspace) = Workspace::new(alloc) else {
        return None;
    };
    let size = heading.position.size();
    for cell in each_cell(linked_cells(&set, index), size) {
        if let Some(node) = node_after(alloc, &mut workspace, heading, steps, cell) {
            return Some(WinningMove { cell, node });
        }
    }
    None
}

/// The node by links of the position after the winner's move to a cell.
fn node_after(
    alloc: Global,
    workspace: &mut Workspace,
    heading: &Heading,
    steps: &[Step],
    cell: Cell,
) -> Option<Node> {
    let is_empty = heading.position.empties().has(cell);
    if !is_empty {
        return None;
    }
    let winner = heading.winner;
    let position = heading.position.with(winner, cell);
    let mut set = set_of(alloc, &position, winner, steps)?;
    join_over(&mut set, cell);
    let to_move = winner.other();
    let steps = deciding_steps(workspace, &mut set, to_move)?;
    Some(Node {
        heading: Heading {
            position,
            to_move,
            winner,
        },
        rule: Rule::Links { steps },
    })
}

/// Adds the Full links between the sides that a stone of the player on the cell makes of Full links to it.
fn join_over(set: &mut LinkSet, cell: Cell) {
    let mut next = set.first_of(Kind::Full, Vertex::First, Vertex::Of(cell));
    for _ in 0..set.count() {
        let Some(left) = next else {
            break;
        };
        join_with(set, cell, left);
        next = set.next_of(left);
    }
}

/// Adds those of one link to the cell, and of each that leads on.
fn join_with(set: &mut LinkSet, cell: Cell, left: u32) {
    let mut next = set.first_of(Kind::Full, Vertex::Of(cell), Vertex::Last);
    for _ in 0..set.count() {
        let Some(right) = next else {
            break;
        };
        let _added = set.add(Step::AndStone { left, right });
        next = set.next_of(right);
    }
}

/// The steps of a link that decides the set's position, where further links are looked for.
fn deciding_steps(workspace: &mut Workspace, set: &mut LinkSet, to_move: Colour) -> Option<Steps> {
    match reach_with(workspace, set, to_move) {
        Ok(Reached::Decided(index)) => steps_of(set, to_move, index),
        Ok(Reached::Open) => None,
        Err(Memory) => None,
    }
}

/// The steps of the set's link at an index.
fn steps_of(set: &LinkSet, to_move: Colour, index: u32) -> Option<Steps>
    requires { Decides set.now to_move index }
{
    let Ok(derived) = set.derivation(&[index]) else {
        return None;
    };
    let Derived { steps, places: _ } = derived;
    Some(steps)
}
