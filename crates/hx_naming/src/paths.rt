//! The way from a node down to the one that names a move, or has links to find one by.
//!
//! A node by fill steps and one by the turned position lead to one child each, with the same mover and winner. So where
//! the mover wins, the way ends at a node by a move, by links or by a chain.

use hx_board::{Cell, Position};
use hx_link::Steps;
use hx_packed::Entry;
use hx_tree::{FillSteps, Heading, Node, Rule};
use std::alloc::Global;

/// How a node on the way leads to its child.
#[derive(Drop)]
pub(crate) enum Leads {
    /// By these fill steps.
    Fill(FillSteps),

    /// By the turned position.
    Turned,
}

/// A node on the way: its position, and how it leads on.
#[derive(Drop)]
pub(crate) struct Passed {
    pub(crate) position: Position,
    pub(crate) leads: Leads,
}

/// Where the way ends.
#[derive(Drop)]
pub(crate) enum End {
    /// At a node by a move to the cell, which leads to the child.
    Move { cell: Cell, child: u32 },

    /// At a node of this heading by links.
    Links { heading: Heading, steps: Steps },
}

/// The nodes on the way, from the first one down, and where it ends.
#[derive(Drop)]
pub(crate) struct Path {
    pub(crate) passed: Vec<Passed>,
    pub(crate) end: End,
}

/// What one node is on the way.
#[derive(Drop)]
enum Stage {
    /// It leads on to a child.
    Passed(Passed, u32),

    /// The way ends there.
    End(End),

    /// It names no move, and has no links.
    Lost,
}

/// The way down from a node. None where it ends at a chain, or memory is wanting.
pub(crate) fn path_from(alloc: Global, nodes: &[Entry], root: u32) -> Option<Path> {
    let mut passed = Vec::new(alloc);
    let mut here = root;
    for _ in 0..nodes.len() {
        let Some(entry) = nodes.get(here as usize) else {
            return None;
        };
        let Ok(node) = entry.to_node(alloc) else {
            return None;
        };
        match stage_of(node) {
            Stage::Passed(on_the_way, child) => {
                if passed.push(on_the_way).is_err() {
                    return None;
                }
                here = child;
            }
            Stage::End(end) => return Some(Path { passed, end }),
            Stage::Lost => return None,
        }
    }
    None
}

/// What a node is on the way.
fn stage_of(node: Node) -> Stage {
    let Node { heading, rule } = node;
    let position = heading.position;
    match rule {
        Rule::Fill { steps, child } => {
            let leads = Leads::Fill(steps);
            Stage::Passed(Passed { position, leads }, child)
        }
        Rule::Turned { child } => {
            let leads = Leads::Turned;
            Stage::Passed(Passed { position, leads }, child)
        }
        Rule::Move { cell, child } => Stage::End(End::Move { cell, child }),
        Rule::Links { steps } => Stage::End(End::Links { heading, steps }),
        Rule::Chain | Rule::All { .. } => Stage::Lost,
    }
}
