//! What zones say of a position, by itself and turned by 180 degrees: a player wins the turned one too, with the same
//! player to move.

use crate::serving::Stones;
use crate::tables::Zones;
use crate::zone::{Kind, Zone};
use hx_board::{Colour, Position, Size};
use hx_turn::turned;

/// With more stones the turned position is not looked for: no such look found a zone. A search from an opening that is
/// not its own turned one comes to a position and to the turned one in the first moves alone.
const FEW_STONES: u32 = 6;

/// The zone on the board turned by 180 degrees. Its two sets are turned as the two players' stones of a position are.
fn turned_zone(size: Size, zone: &Zone) -> Option<Zone> {
    let free = zone.free.minus(zone.needed);
    let Some(there) = Position::from_masks(size, zone.needed, free) else {
        return None;
    };
    let back = turned(&there);
    Some(Zone {
        needed: back.stones(Colour::Black),
        free: back.stones(Colour::White),
    })
}

impl Zones {
    /// A zone of a kind that serves the position.
    pub fn serving(&self, position: &Position, kind: Kind) -> Option<Zone> {
        let stones = Stones {
            own: position.stones(kind.winner).bits(),
            others: position.stones(kind.winner.other()).bits(),
        };
        self.find(kind, &stones)
    }

    /// A zone made of one that serves the turned position `there`. It is kept, so that the position is found by itself
    /// from now on.
    fn serving_turned(&self, there: &Position, kind: Kind) -> Option<Zone> {
        let Some(zone) = self.serving(there, kind) else {
            return None;
        };
        let Some(here) = turned_zone(there.size(), &zone) else {
            return None;
        };
        self.keep(kind, &here);
        Some(here)
    }

    /// A zone by which this player wins the position: its own, or where there are few stones one made of the turned
    /// position's.
    pub fn won_by(&self, position: &Position, to_move: Colour, winner: Colour) -> Option<Zone> {
        let kind = Kind { to_move, winner };
        if let Some(zone) = self.serving(position, kind) {
            return Some(zone);
        }
        let black = position.stones(Colour::Black).count();
        let white = position.stones(Colour::White).count();
        if black.saturating_add(white) > FEW_STONES {
            return None;
        }
        self.serving_turned(&turned(position), kind)
    }

    /// Whether a zone says who wins the position.
    pub fn knows(&self, position: &Position, to_move: Colour) -> bool {
        self.won_by(position, to_move, to_move).is_some()
            || self.won_by(position, to_move, to_move.other()).is_some()
    }
}
