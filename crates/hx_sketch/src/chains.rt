//! The zone of a chain: its stones, and no free cells.
//!
//! It is enough: where the player has these stones they are a chain, whatever else is on the board and whoever is to
//! move.

use hx_board::{Colour, Mask, Position, chain};
use hx_cells::each_cell;
use hx_zones::{Kind, Zone, Zones, placed};

/// Whether these stones of a player have a chain, where all other cells are the opponent's.
fn has_chain(position: &Position, winner: Colour, own: Mask) -> bool {
    let size = position.size();
    match placed(size, winner, own, size.all().minus(own)) {
        Some(tried) => chain(&tried, winner),
        None => false,
    }
}

/// Keeps the zone of a player's chain, for either player to move. Stones are left out one after the other while a chain
/// is left.
pub(crate) fn draft_chain(zones: &Zones, position: &Position, winner: Colour) {
    let size = position.size();
    let mut kept = position.stones(winner);
    for cell in each_cell(kept, size) {
        if has_chain(position, winner, kept.without(cell)) {
            kept = kept.without(cell);
        }
    }
    let zone = Zone {
        needed: kept,
        free: Mask::empty(),
    };
    for to_move in [Colour::Black, Colour::White] {
        zones.keep(Kind { to_move, winner }, &zone);
    }
}
