//! Looks for a zone that serves a position.

use crate::bits::highest;
use crate::lists::Lists;
use crate::serving::Stones;
use crate::tables::{LISTS_OF_KIND, Zones};
use crate::zone::{Kind, Zone};
use hx_board::Mask;

impl Zones {
    /// A zone in a list that serves, of the newest block that has one.
    fn find_in(&self, list: usize, stones: &Stones) -> Option<Zone> {
        let mut trail = self.trail(list);
        for _ in 0..self.blocks() {
            let Some(block) = self.step(&mut trail) else {
                return None;
            };
            if let Some(number) = highest(self.serving_in(block, stones)) {
                let (needed, free) = self.item(block, number);
                return Some(Zone {
                    needed: Mask::of(needed),
                    free: Mask::of(free),
                });
            }
        }
        None
    }

    /// A zone of a kind that serves these stones.
    pub(crate) fn find(&self, kind: Kind, stones: &Stones) -> Option<Zone> {
        let mut lists: Lists = self.lists(kind, stones.own);
        for _ in 0..LISTS_OF_KIND {
            let Some(list) = lists.step() else {
                return None;
            };
            if let Some(zone) = self.find_in(list, stones) {
                return Some(zone);
            }
        }
        None
    }
}
