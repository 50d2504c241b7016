//! The zone of answers to all moves of the opponent's.
//!
//! After each move that must be tried some zone has the winner win. Such a zone answers the other moves outside its
//! free cells too, so a few are chosen, and each of these moves is answered by one of them. The zone of answers needs
//! the winner's stones that one of them needs or has on its free cells. Its free cells are the empty ones among theirs,
//! with the carriers of the threats and the cells of the lines by better cells.
//!
//! It is enough: with these stones and free cells, and all other cells the opponent's, the opponent has moves to the
//! free cells alone. After each that must be tried the chosen zone that answers it serves, since the winner has the
//! stones that it needs, and the opponent none on its free cells. So the node has children there that are taken for
//! granted. The checker judges the rest of it, its threats and its lines by better cells, and which stones these need
//! (judged.rt).

ghost use Rattle.hx_fill.specs.Musts.{IsMust};

use crate::judged::{Judged, keep_judged};
use hx_board::{CELLS, Cell, Colour, Mask, Memory, Position};
use hx_cells::each_cell;
use hx_fill::{Must, must, without_lines};
use hx_inferior::Kill;
use hx_linkset::LinkSet;
use hx_tree::{Heading, Line, Lines, Node, Rule, Threats};
use hx_zones::{Kind, Zone, Zones};
use std::alloc::Global;

/// A zone that serves the position after the opponent's move to a cell.
fn zone_after(zones: &Zones, position: &Position, winner: Colour, cell: Cell) -> Option<Zone> {
    let is_empty = position.empties().has(cell);
    if !is_empty {
        return None;
    }
    let kind = Kind {
        to_move: winner,
        winner,
    };
    zones.serving(&position.with(winner.other(), cell), kind)
}

/// What the zones that answer the moves to these cells need together. None where no zone answers one of them.
fn zone_after_all(zones: &Zones, position: &Position, winner: Colour, cells: Mask) -> Option<Zone> {
    let size = position.size();
    let mut needed = Mask::empty();
    let mut free = Mask::empty();
    let mut left = cells.meet(position.empties());
    for _ in 0..CELLS {
        let Some(cell) = left.least(size) else {
            break;
        };
        let Some(zone) = zone_after(zones, position, winner, cell) else {
            return None;
        };
        needed = needed.union(zone.needed);
        free = free.union(zone.free);
        // This zone answers the moves outside its free cells too.
        left = left.without(cell).meet(zone.free);
    }
    Some(Zone {
        needed: needed.union(free).meet(position.stones(winner)),
        free: free.meet(position.empties()),
    })
}

/// The cells of a line: its own, and where it names a better cell that one and the partner.
fn cells_of(line: &Line) -> Mask {
    match line {
        Line::Child { cell, .. } => Mask::empty().with(*cell),
        Line::Under { cell, better, kill } => {
            let both = Mask::empty().with(*cell).with(*better);
            match kill {
                Kill::ByDead => both,
                Kill::ByPair(partner) => both.with(*partner),
            }
        }
    }
}

/// The cells that the threats and the lines by better cells need.
fn free_at_once(set: &LinkSet, found: &Must) -> Mask {
    let mut free = Mask::empty();
    for threat in found.threats.items() {
        free = free.union(set.carrier(*threat));
    }
    for line in found.under.items() {
        free = free.union(cells_of(line));
    }
    free
}

/// The line of a cell among these.
fn line_among(lines: &[Line], cell: Cell) -> Option<Line> {
    for line in lines {
        if line.cell() == cell {
            return Some(*line);
        }
    }
    None
}

/// The line of a cell: the one by a better cell, where there is one, and else one with this child.
fn line_for(under: &[Line], cell: Cell, child: u32) -> Line {
    match line_among(under, cell) {
        Some(line) => line,
        None => Line::Child { cell, child },
    }
}

/// How many children there are with a line's, where there were so many before it.
fn children_with(line: &Line, count: u32) -> u32 {
    match line {
        Line::Child { .. } => count.wrapping_add(1),
        Line::Under { .. } => count,
    }
}

/// A line for each of the cells: the one by a better cell, where there is one, and else one with a child of its own.
fn lines_for(
    alloc: Global,
    position: &Position,
    cells: Mask,
    under: &[Line],
) -> Result<Vec<Line>, Memory> {
    let size = position.size();
    let mut lines = Vec::new(alloc);
    let mut child = 0u32;
    for cell in each_cell(cells, size) {
        let line = line_for(under, cell, child);
        child = children_with(&line, child);
        if lines.push(line).is_err() {
            return Err(Memory);
        }
    }
    Ok(lines)
}

/// The node of answers where these cells alone are free. Its children are numbered in the order of its lines.
fn node_for(set: &LinkSet, found: &Must, free: Mask) -> Result<Node, Memory>
    requires { IsMust set.now found.now.threats found.now.cells found.now.under }
{
    let winner = set.colour();
    let position = *set.position();
    let cells = found.cells.meet(free);
    let lines = lines_for(set.allocator(), &position, cells, found.under.items())?;
    let derived = set.derivation(found.threats.items())?;
    let heading = Heading {
        position,
        to_move: winner.other(),
        winner,
    };
    let rule = Rule::All {
        steps: derived.steps,
        threats: Threats::new(derived.places),
        lines: Lines::new(lines),
    };
    Ok(Node { heading, rule })
}

/// Keeps the zone of answers, where zones say that the set's player wins after each move that must be tried. Whether
/// they do.
pub(crate) fn draft_answers(zones: &Zones, set: &LinkSet, order: &[Cell]) -> Result<bool, Memory> {
    let found = must(set, order)?;
    let position = set.position();
    let tried = without_lines(found.cells, found.under.items());
    let Some(after) = zone_after_all(zones, position, set.colour(), tried) else {
        return Ok(false);
    };
    let free = after.free.union(free_at_once(set, &found));
    let judged = Judged {
        node: node_for(set, &found, free)?,
        size: position.size(),
        free,
    };
    keep_judged(zones, set, judged, after.needed)?;
    Ok(true)
}
