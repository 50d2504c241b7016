//! How a zone is kept.
//!
//! Where a zone in the table serves each position that a new one serves, the new one tells nothing more and is not
//! kept. Old zones that serve less than the new one stay, until their blocks are written over.

use crate::bits::{PLACES, ZONES, only, take_cell};
use crate::lists::list_of;
use crate::serving::Stones;
use crate::tables::{ALWAYS, Any, Column, Zones};
use crate::zone::{Kind, Zone};

/// All cells of the largest board: 2^121 - 1.
const ALL: u128 = 2658455991569831745807614120560689151;

/// The two needed cells that the fewest zones need, the rarer one first. `ALWAYS` where there is none.
#[derive(Clone, Copy)]
struct Rarest {
    first: usize,
    second: usize,
    first_count: u64,
    second_count: u64,
}

impl Rarest {
    /// Takes in a cell that so many zones need.
    fn add(&mut self, cell: usize, count: u64) {
        if count < self.first_count {
            self.second_count = self.first_count;
            self.second = self.first;
            self.first_count = count;
            self.first = cell;
        } else if count < self.second_count {
            self.second_count = count;
            self.second = cell;
        }
    }
}

impl Zones {
    /// Counts a zone more that needs these cells, and answers which of them the fewest zones needed before. In a table
    /// with one list for each kind none is counted.
    fn count_needed(&self, kind: Kind, needed: u128) -> Rarest {
        let mut rarest = Rarest {
            first: ALWAYS,
            second: ALWAYS,
            first_count: u64::MAX,
            second_count: u64::MAX,
        };
        let mut left = if self.has_lists() { needed } else { 0 };
        for _ in 0..PLACES {
            let Some(cell) = take_cell(&mut left) else {
                break;
            };
            rarest.add(cell, self.count_need(kind.place(), cell));
        }
        rarest
    }

    /// A block of a list, and a place in it: in its newest block, unless that is full or was taken for another list
    /// meanwhile, and else in a new one. None in a table without blocks.
    fn room_in(&self, list: usize) -> Option<(u32, usize)> {
        let head = self.head(list);
        if let Some(block) = head {
            if self.list_at(block) == list as u64 {
                let used = self.give_place(block);
                if used < ZONES as u64 {
                    return Some((block, used as usize));
                }
            }
        }
        match self.take_block(list, head) {
            Some(block) => Some((block, 0)),
            None => None,
        }
    }

    /// Adds zones to the columns of these cells.
    fn add_columns(&self, block: u32, zones: u64, cells: u128, are_needed: bool) {
        let mut left = cells;
        for _ in 0..PLACES {
            let Some(cell) = take_cell(&mut left) else {
                break;
            };
            let column = if are_needed {
                Column::Needs(cell)
            } else {
                Column::Touches(cell)
            };
            self.add_to_column(block, column, zones);
        }
    }

    /// Adds a zone to a list. It stands when all else is written, so nobody finds half of one.
    fn add_to(&self, list: usize, needed: u128, free: u128) {
        let Some((block, number)) = self.room_in(list) else {
            return;
        };
        let zones = only(number);
        let touched = needed | free;
        self.put_item(block, number, needed, free);
        self.add_columns(block, zones, needed, true);
        self.add_columns(block, zones, touched, false);
        self.add_to_any(block, Any::Needed, needed);
        self.add_to_any(block, Any::Touched, touched);
        self.let_stand(block, zones);
    }

    /// Keeps a zone of a kind, where none serves all that it serves. One by which the player to move loses is kept in
    /// two lists: `tell` looks for zones that lack one stone, and finds it though that is the stone of one of them.
    pub fn keep(&self, kind: Kind, zone: &Zone) {
        let needed = zone.needed.bits();
        let free = zone.free.minus(zone.needed).bits();
        // The winner's fewest stones, and the opponent's most, with which the zone serves.
        let hardest = Stones {
            own: needed,
            others: ALL & !(needed | free),
        };
        if self.find(kind, &hardest).is_some() {
            return;
        }
        let rarest = self.count_needed(kind, needed);
        let place = kind.place();
        self.add_to(list_of(place, rarest.first), needed, free);
        if kind.is_loss() && rarest.second != rarest.first {
            self.add_to(list_of(place, rarest.second), needed, free);
        }
    }
}
