//! What a player's links leave to the opponent: the empty cells that are in the carrier of each live link between the
//! player's sides, asked of each cell and each link.

use hx_board::{CELLS, Cell, Mask};
use hx_linkset::LinkSet;

/// Whether the link at an index is live, joins the sides, and lacks a cell.
fn is_live_without(set: &LinkSet, index: u32, cell: Cell) -> bool {
    match set.link(index) {
        None => false,
        Some(link) => link.joins_sides() && !link.carrier.has(cell),
    }
}

/// Whether a cell is in the carrier of each live link between the sides.
fn is_in_each(set: &LinkSet, cell: Cell) -> bool {
    for index in 0..set.count() {
        if is_live_without(set, index, cell) {
            return false;
        }
    }
    true
}

/// The empty cells that are in the carrier of each live link between the sides.
pub(crate) fn shared_by_all(set: &LinkSet) -> Mask {
    let position = set.position();
    let mut shared = Mask::empty();
    for place in 0..CELLS as u8 {
        if let Some(cell) = position.size().cell(place / 11, place % 11)
            && position.empties().has(cell)
            && is_in_each(set, cell)
        {
            shared = shared.with(cell);
        }
    }
    shared
}

/// The empty cells that are in the carriers of all threats. None where a threat is no live link between the sides, or
/// has all cells that the threats before it share, so that it takes none away.
pub(crate) fn shared_by(set: &LinkSet, threats: &[u32]) -> Option<Mask> {
    let mut shared = set.position().empties();
    for threat in threats {
        let Some(link) = set.link(*threat) else {
            return None;
        };
        if !link.joins_sides() {
            return None;
        }
        let left = shared.meet(link.carrier);
        if left == shared {
            return None;
        }
        shared = left;
    }
    Some(shared)
}
