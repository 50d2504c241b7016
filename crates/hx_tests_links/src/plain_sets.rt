//! A set of links as a plain list: which of them are live is told from the position alone, and nothing is kept beside
//! them.
//!
//! What one step gives, and which vertices may be ends, is asked of hx_link, which holds that against a plain program
//! of its own.

use hx_board::{Cell, Colour, Groups, Memory, Position, Vertex};
use hx_link::{Kind, Link, Step, ends_of, result_of};
use hx_linkset::{Added, MOST_LINKS};
use std::alloc::Global;

/// The position before a play, and how many links there were.
#[derive(Clone, Copy)]
struct Before {
    position: Position,
    count: usize,
}

/// The links of a player, live or not.
#[derive(Drop)]
pub(crate) struct PlainSet {
    pub(crate) position: Position,
    colour: Colour,
    links: Vec<Link>,
    plays: Vec<Before>,
}

impl PlainSet {
    pub(crate) fn new(alloc: Global, position: &Position, colour: Colour) -> PlainSet {
        PlainSet {
            position: *position,
            colour,
            links: Vec::new(alloc),
            plays: Vec::new(alloc),
        }
    }

    pub(crate) fn count(&self) -> usize {
        self.links.len()
    }

    pub(crate) fn plays(&self) -> usize {
        self.plays.len()
    }

    /// The link at a place, where it is live.
    pub(crate) fn live_at(&self, place: usize) -> Option<Link> {
        match self.links.get(place) {
            Some(link) if is_live(&self.position, self.colour, link) => Some(*link),
            _ => None,
        }
    }

    /// Whether the links of a step are live.
    fn is_from_live(&self, step: &Step) -> bool {
        match step {
            Step::Base { .. } => true,
            Step::AndStone { left, right } | Step::AndCell { left, right } => {
                self.live_at(*left as usize).is_some() && self.live_at(*right as usize).is_some()
            }
            Step::Or { parts } => {
                for part in parts.items() {
                    if self.live_at(*part as usize).is_none() {
                        return false;
                    }
                }
                true
            }
        }
    }

    /// The link that a step gives from live links.
    fn given(&self, step: &Step) -> Option<Link> {
        let groups = Groups::of(&self.position, self.colour);
        if self.is_from_live(step) {
            result_of(
                &self.position,
                self.colour,
                &groups,
                self.links.as_slice(),
                step,
            )
        } else {
            None
        }
    }

    /// The first live link of the same kind and ends that has no cell which the link lacks.
    fn covering(&self, link: &Link) -> Option<usize> {
        for place in 0..self.links.len().min(MOST_LINKS) {
            if let Some(by) = self.live_at(place)
                && by.kind == link.kind
                && by.a == link.a
                && by.b == link.b
                && by.carrier.inside(link.carrier)
            {
                return Some(place);
            }
        }
        None
    }

    /// What becomes of a step.
    pub(crate) fn add(&mut self, step: &Step) -> Result<Added, Memory> {
        let Some(link) = self.given(step) else {
            return Ok(Added::Refused);
        };
        if let Some(place) = self.covering(&link) {
            let place = u32::try_from(place).unwrap_or(u32::MAX);
            return Ok(Added::Covered(place));
        }
        let count = self.links.len();
        if count >= MOST_LINKS {
            return Ok(Added::Limit);
        }
        match self.links.extend_from_slice(&[link]) {
            Ok(()) => Ok(Added::New(count as u32)),
            Err(_) => Err(Memory),
        }
    }

    /// Puts some stones as one play, those of them that come to empty cells.
    pub(crate) fn play(&mut self, stones: &[(Colour, Cell)]) -> Result<(), Memory> {
        let before = Before {
            position: self.position,
            count: self.links.len(),
        };
        if self.plays.push(before).is_err() {
            return Err(Memory);
        }
        for (colour, cell) in stones {
            if self.position.empties().has(*cell) {
                self.position.play(*colour, *cell);
            }
        }
        Ok(())
    }

    /// Takes the last play back.
    pub(crate) fn undo(&mut self) {
        if let Some(before) = self.plays.pop() {
            self.position = before.position;
            self.links.truncate(before.count);
        }
    }

    /// The position before the plays since the last link came.
    pub(crate) fn before_last_stones(&self) -> Position {
        for before in self.plays.as_slice() {
            if before.count == self.links.len() {
                return before.position;
            }
        }
        self.position
    }

    /// Whether the link at a place was live before those plays, and is not live now.
    pub(crate) fn is_dropped(&self, place: usize) -> bool {
        match self.links.get(place) {
            None => false,
            Some(link) => {
                is_live(&self.before_last_stones(), self.colour, link)
                    && !is_live(&self.position, self.colour, link)
            }
        }
    }
}

/// Whether each cell of the link is an empty cell of the board, and each end is a side or a cell of the board without a
/// stone of the opponent.
fn is_live(position: &Position, colour: Colour, link: &Link) -> bool {
    let size = position.size();
    let mut empty_cells = 0u32;
    for row in 0..size.rows() {
        for col in 0..size.cols() {
            if let Some(cell) = size.cell(row, col)
                && link.carrier.has(cell)
                && position.at(cell).is_none()
            {
                empty_cells = empty_cells.saturating_add(1);
            }
        }
    }
    let is_empty = empty_cells == link.carrier.count();
    let ends = ends_of(position, colour);
    is_empty && ends.has(link.a) && ends.has(link.b)
}

/// Whether a link has this kind, where one is asked for, and these ends, in either order.
pub(crate) fn is_between(link: &Link, kind: Option<Kind>, a: &Vertex, b: &Vertex) -> bool {
    let is_of_kind = match kind {
        None => true,
        Some(kind) => link.kind == kind,
    };
    let ends = (link.a, link.b);
    is_of_kind && (ends == (*a, *b) || ends == (*b, *a))
}
