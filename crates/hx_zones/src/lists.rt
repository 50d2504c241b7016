//! The lists of blocks.
//!
//! A zone stands in the list of one of its needed stones: the one that the fewest zones of its kind need. So a look
//! goes over the lists of the stones that there are, and not over all blocks: with 130,000 zones that took a third of a
//! search's time. A small table has one list for each kind.

use crate::bits::take_cell;
use crate::tables::{ALWAYS, LISTS_OF_KIND, Zones};
use crate::zone::{KINDS, Kind};

/// Whoever goes over a list. The blocks that it comes to are older and older: so it ends, whatever others write
/// meanwhile.
#[derive(Clone, Copy)]
pub(crate) struct Trail {
    list: u64,
    next: Option<u32>,
    age: u64,
}

/// Whoever goes over the lists in which zones of a kind may stand that serve a position: those of the winner's stones,
/// and last the one of the zones that need none.
#[derive(Clone, Copy)]
pub(crate) struct Lists {
    kind: usize,
    left: u128,
    is_always_left: bool,
}

/// The list of a kind for a cell, or for no cell.
pub(crate) fn list_of(kind: usize, cell: usize) -> usize {
    kind % KINDS * LISTS_OF_KIND + cell % LISTS_OF_KIND
}

impl Zones {
    /// Goes over the lists for these stones of the winner's.
    pub(crate) fn lists(&self, kind: Kind, own: u128) -> Lists {
        Lists {
            kind: kind.place(),
            left: if self.has_lists() { own } else { 0 },
            is_always_left: true,
        }
    }

    /// Goes over a list.
    pub(crate) fn trail(&self, list: usize) -> Trail {
        Trail {
            list: list as u64,
            next: self.head(list),
            age: u64::MAX,
        }
    }

    /// The next block of a list. None at its end, or where the block is another list's by now.
    #[inline(always)]
    pub(crate) fn step(&self, trail: &mut Trail) -> Option<u32> {
        let Some(block) = trail.next else {
            return None;
        };
        let age = self.age(block);
        if self.list_at(block) != trail.list || age >= trail.age {
            return None;
        }
        trail.age = age;
        trail.next = self.next(block);
        Some(block)
    }
}

impl Lists {
    /// The next list.
    pub(crate) fn step(&mut self) -> Option<usize> {
        if let Some(cell) = take_cell(&mut self.left) {
            return Some(list_of(self.kind, cell));
        }
        if self.is_always_left {
            self.is_always_left = false;
            return Some(list_of(self.kind, ALWAYS));
        }
        None
    }
}
