//! The zone of a node, by links or by answers: its free cells, and the stones without which the checker says no more
//! that it is right.
//!
//! The node is tried at the position with some of the winner's stones, where all cells are the opponent's but these and
//! the free ones. It is enough: where the node is right there the winner wins there, and so wherever the zone serves,
//! since the winner may have more stones there and the opponent fewer, which makes no win harder.
//!
//! Stones are left out one after the other while the node stays right. Those that its children need stay, so that these
//! are won there.

use hx_board::{Mask, Memory, Position, Size};
use hx_cells::each_cell;
use hx_linkset::LinkSet;
use hx_tree::{Heading, Line, Node, Rule, check_node};
use hx_zones::{Kind, Zone, Zones, placed};
use std::alloc::Global;

/// A node that is tried at positions with these cells free.
#[derive(Drop)]
pub(crate) struct Judged {
    pub(crate) node: Node,
    pub(crate) size: Size,
    pub(crate) free: Mask,
}

impl Judged {
    /// The headings after the moves of lines with children, which are taken for granted. None where such a cell is not
    /// empty.
    fn headings(&self, alloc: Global, position: &Position) -> Result<Option<Vec<Heading>>, Memory> {
        let winner = self.node.heading.winner;
        let mut headings = Vec::new(alloc);
        let Rule::All { lines, .. } = &self.node.rule else {
            return Ok(Some(headings));
        };
        for line in lines.items() {
            let Line::Child { cell, .. } = line else {
                continue;
            };
            let is_empty = position.empties().has(*cell);
            if !is_empty {
                return Ok(None);
            }
            let heading = Heading {
                position: position.with(winner.other(), *cell),
                to_move: winner,
                winner,
            };
            if headings.push(heading).is_err() {
                return Err(Memory);
            }
        }
        Ok(Some(headings))
    }

    /// Whether the node is right where the winner has these stones alone.
    fn is_right_with(&mut self, alloc: Global, own: Mask) -> Result<bool, Memory> {
        let others = self.size.all().minus(own.union(self.free));
        let Some(position) = placed(self.size, self.node.heading.winner, own, others) else {
            return Ok(false);
        };
        let Some(headings) = self.headings(alloc, &position)? else {
            return Ok(false);
        };
        self.node.heading.position = position;
        check_node(alloc, headings.as_slice(), &self.node)
    }

    /// Some of the winner's stones with which the node is right, among them those that are needed anyway. None where it
    /// is not right with all of the winner's.
    pub(crate) fn needed(
        &mut self,
        alloc: Global,
        own: Mask,
        needed: Mask,
    ) -> Result<Option<Mask>, Memory> {
        if self.is_right_with(alloc, needed)? {
            return Ok(Some(needed));
        }
        let is_right = self.is_right_with(alloc, own)?;
        if !is_right {
            return Ok(None);
        }
        let mut kept = own;
        for cell in each_cell(own.minus(needed), self.size) {
            if self.is_right_with(alloc, kept.without(cell))? {
                kept = kept.without(cell);
            }
        }
        Ok(Some(kept))
    }
}

/// Keeps the zone of a node of the set's player at the set's position, with stones that are needed anyway. Where the
/// node is not right without the position's other cells, the zone is the position itself: all of the winner's stones,
/// and all empty cells.
pub(crate) fn keep_judged(
    zones: &Zones,
    set: &LinkSet,
    judged: Judged,
    needed: Mask,
) -> Result<(), Memory> {
    let mut judged = judged;
    let position = set.position();
    let own = position.stones(set.colour());
    let kind = Kind {
        to_move: judged.node.heading.to_move,
        winner: set.colour(),
    };
    let zone = match judged.needed(set.allocator(), own, needed.meet(own))? {
        Some(kept) => Zone {
            needed: kept,
            free: judged.free,
        },
        None => Zone {
            needed: own,
            free: position.empties(),
        },
    };
    zones.keep(kind, &zone);
    Ok(())
}
