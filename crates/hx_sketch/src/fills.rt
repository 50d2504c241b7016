//! The zone of fill-in: that of the position after it, without the stones that were filled in for the winner. The cells
//! of the winner's steps that fill these are to be free, and it needs the stones without which these steps are not
//! right.
//!
//! It is enough: with these stones and free cells, and all other cells the opponent's, the steps are right one after
//! the other, so they change nothing of who wins. After them the zone of the filled position serves, since the winner
//! has the stones that it needs. So the winner wins there, and wherever the zone before the steps serves: there the
//! winner may have more stones and the opponent fewer, which makes no win harder.
//!
//! The opponent's steps need nothing: without a stone that they put the winner wins all the more. Of the winner's steps
//! those are tried first that fill a cell which the zone after fill-in needs. One of these may be right only behind
//! another step of the winner's: where they are not right, all of the winner's steps are tried.

use hx_board::{Colour, Mask, Memory, Position};
use hx_cells::each_cell;
use hx_fill::Filled;
use hx_inferior::{FillStep, fill_one};
use hx_zones::{Kind, Zone, Zones, placed};
use std::alloc::Global;

/// The cells of a step.
fn cells_of(step: &FillStep) -> Mask {
    match step {
        FillStep::Dead(cell) | FillStep::Other(cell) => Mask::empty().with(*cell),
        FillStep::Pair(a, b) => Mask::empty().with(*a).with(*b),
    }
}

/// The winner's steps that fill one of these cells.
fn steps_on(
    alloc: Global,
    filled: &Filled,
    winner: Colour,
    cells: Mask,
) -> Result<Vec<FillStep>, Memory> {
    let mut steps = Vec::new(alloc);
    for fill in filled.steps.as_slice() {
        let is_among = fill.colour == winner && cells_of(&fill.step).meets(cells);
        if is_among && steps.push(fill.step).is_err() {
            return Err(Memory);
        }
    }
    Ok(steps)
}

/// The cells of steps.
fn all_cells(steps: &[FillStep]) -> Mask {
    let mut cells = Mask::empty();
    for step in steps {
        cells = cells.union(cells_of(step));
    }
    cells
}

/// Whether the steps are right for the winner, one after the other, where the winner has these stones alone, these
/// cells are empty, and all others are the opponent's.
fn are_right(
    position: &Position,
    winner: Colour,
    own: Mask,
    free: Mask,
    steps: &[FillStep],
) -> bool {
    let size = position.size();
    let others = size.all().minus(own.union(free));
    let Some(start) = placed(size, winner, own, others) else {
        return false;
    };
    let mut there = start;
    for step in steps {
        match fill_one(&there, winner, *step) {
            Some(next) => there = next,
            None => return false,
        }
    }
    true
}

/// The zone before steps of the winner's, of one that serves after them. None where they are not right with all of the
/// winner's stones.
fn zone_before_steps(
    position: &Position,
    winner: Colour,
    there: &Zone,
    steps: &[FillStep],
) -> Option<Zone> {
    let size = position.size();
    let own = position.stones(winner);
    let filled = all_cells(steps);
    let needed = there.needed.minus(filled).meet(own);
    let free = there.free.union(filled);
    if are_right(position, winner, needed, free.minus(needed), steps) {
        return Some(Zone { needed, free });
    }
    if !are_right(position, winner, own, free.minus(own), steps) {
        return None;
    }
    let mut kept = own;
    for cell in each_cell(own.minus(needed), size) {
        let tried = kept.without(cell);
        if are_right(position, winner, tried, free.minus(tried), steps) {
            kept = tried;
        }
    }
    Some(Zone { needed: kept, free })
}

/// The zone before fill-in, of one that serves after it. Where the steps are not right without the position's other
/// cells, it is the position itself: all of the winner's stones, and all empty cells.
fn zone_before_fill(
    alloc: Global,
    position: &Position,
    winner: Colour,
    filled: &Filled,
    there: &Zone,
) -> Result<Zone, Memory> {
    for cells in [there.needed, position.empties()] {
        let steps = steps_on(alloc, filled, winner, cells)?;
        if let Some(zone) = zone_before_steps(position, winner, there, steps.as_slice()) {
            return Ok(zone);
        }
    }
    Ok(Zone {
        needed: position.stones(winner),
        free: position.empties(),
    })
}

/// Keeps the zone of fill-in, where one says that this player wins after it. Whether one does.
fn draft_fill_for(
    zones: &Zones,
    alloc: Global,
    position: &Position,
    kind: Kind,
    filled: &Filled,
) -> Result<bool, Memory> {
    let Some(there) = zones.serving(&filled.position, kind) else {
        return Ok(false);
    };
    let zone = zone_before_fill(alloc, position, kind.winner, filled, &there)?;
    zones.keep(kind, &zone);
    Ok(true)
}

/// Keeps the zone of fill-in, where one says who wins after it. Whether one does.
pub(crate) fn draft_fill(
    zones: &Zones,
    alloc: Global,
    position: &Position,
    to_move: Colour,
    filled: &Filled,
) -> Result<bool, Memory> {
    for winner in [to_move, to_move.other()] {
        let kind = Kind { to_move, winner };
        if draft_fill_for(zones, alloc, position, kind, filled)? {
            return Ok(true);
        }
    }
    Ok(false)
}
