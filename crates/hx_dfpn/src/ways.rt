//! The way down to a visit: which positions are above it, and whether one of them is proved meanwhile.
//!
//! Another worker may prove a position while this one searches below it. Then nobody waits for what this one finds
//! there, so it goes back up to that position. With four workers this takes 7 units in 100 off; one worker takes as
//! many as without.
//!
//! What tells of a proof is a mark (`marks.rt` of hx_ordering), which is seldom that of another position. Then the
//! visit there writes it anew when the worker has come back up to it, and the search goes on.

use hx_board::CELLS;
use hx_count::Hints;
use hx_ordering::is_marked;

/// A place for each depth. The visit at the root has as much as a board has cells.
const PLACES: usize = CELLS + 1;

/// The keys of the positions on a way down, each at the place of its visit's depth. The place of the root is the last
/// one, so behind a visit's own place there are those of the visits above it alone. It can be copied, since it has no
/// memory of its own.
#[derive(Clone, Copy)]
pub struct Way {
    keys: [u64; PLACES],
}

impl Way {
    /// A way on which no position is noted.
    pub fn new() -> Way {
        Way { keys: [0; PLACES] }
    }

    /// Notes the position and mover that have this key as those of the visit at a depth.
    pub fn note(&mut self, depth: u32, key: u64) {
        if let Some(place) = self.keys.get_mut(depth as usize) {
            *place = key;
        }
    }

    /// Whether a position above the visit at a depth is marked as proved.
    pub fn is_marked_above(&self, hints: &Hints, depth: u32) -> bool {
        let above = self.keys.get(depth as usize + 1..).unwrap_or(&[]);
        for key in above {
            if is_marked(hints, *key) {
                return true;
            }
        }
        false
    }
}
