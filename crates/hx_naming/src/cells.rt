//! The moves after which links may decide a position, as they do before it.
//!
//! A Full link needs no move, and stays where a move is outside its carrier. A Semi link comes of two Full links that
//! share an empty cell: a stone there joins them.

use hx_board::{Mask, Vertex};
use hx_cells::each_cell;
use hx_link::Kind;
use hx_linkset::LinkSet;

/// The moves that are tried, where the set's link at an index decides the position.
pub(crate) fn linked_cells(set: &LinkSet, index: u32) -> Mask {
    let empties = set.position().empties();
    let carrier = set.carrier(index);
    let full = set.first_of(Kind::Full, Vertex::First, Vertex::Last);
    if full.is_none() {
        return cells_between(set, empties.meet(carrier));
    }
    let outside = empties.minus(carrier);
    if outside.is_empty() { empties } else { outside }
}

/// Those among some cells that Full links join with both sides of the set's player.
fn cells_between(set: &LinkSet, cells: Mask) -> Mask {
    let size = set.position().size();
    let mut found = Mask::empty();
    for cell in each_cell(cells, size) {
        let first = set.first_of(Kind::Full, Vertex::First, Vertex::Of(cell));
        let last = set.first_of(Kind::Full, Vertex::Of(cell), Vertex::Last);
        if first.is_some() && last.is_some() {
            found = found.with(cell);
        }
    }
    found
}
