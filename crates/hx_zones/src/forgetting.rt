//! How a zone is forgotten.
//!
//! Who made no proof of what a zone told has it forgotten, so that a look finds another one or none. Its place stays
//! taken until its block is written over.

use crate::bits::{ZONES, only, take_zone};
use crate::lists::Lists;
use crate::tables::{LISTS_OF_KIND, Zones};
use crate::zone::{Kind, Zone};

impl Zones {
    /// The zones of a block that are this one.
    fn same_in(&self, block: u32, zone: &Zone) -> u64 {
        let mut same = 0u64;
        let mut left = self.live(block);
        for _ in 0..ZONES {
            let Some(number) = take_zone(&mut left) else {
                break;
            };
            if self.item(block, number) == (zone.needed.bits(), zone.free.bits()) {
                same |= only(number);
            }
        }
        same
    }

    /// Forgets a zone in a list, as often as it stands there.
    fn forget_in(&self, list: usize, zone: &Zone) {
        let mut trail = self.trail(list);
        for _ in 0..self.blocks() {
            let Some(block) = self.step(&mut trail) else {
                break;
            };
            let same = self.same_in(block, zone);
            if same != 0 {
                self.drop_zones(block, same);
            }
        }
    }

    /// Forgets a zone of a kind, as a look found it.
    pub fn forget(&self, kind: Kind, zone: &Zone) {
        let mut lists: Lists = self.lists(kind, zone.needed.bits());
        for _ in 0..LISTS_OF_KIND {
            let Some(list) = lists.step() else {
                break;
            };
            self.forget_in(list, zone);
        }
    }
}
