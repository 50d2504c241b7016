//! Words that workers share without an order.
//!
//! Each call is one step on one word, and takes no lock. A word may be changed by others at any time, and nothing is
//! said of what it holds. A place that there is not reads as zero, and what is put there is lost: so a caller owes
//! nothing of its places.

ghost use Rattle.std.specs.Prelude.{◌≡◌};
ghost use Rattle.hx_zones.specs.Steps.{AnyWords, no_view, steps};

use atomic_table::{Play, Table, TableRule};
use hx_board::Memory;
use std::alloc::Global;

/// The rule of the words: there is none.
pub struct NoRule;

impl TableRule<(), (), ()> for NoRule {
    ghost holds = { AnyWords };

    ghost first = { no_view };
}

/// A step on a word.
pub struct Stepping;

impl Play<(), ()> for Stepping {
    ghost then = { steps };
}

/// Words that workers share.
#[derive(Drop)]
pub(crate) struct Words {
    table: Table<(), (), (), NoRule, Global>,
    count: usize,
    ghost within: { table.shared.table_id.words ≡ count },
}

impl Words {
    /// So many words of zeros.
    pub(crate) fn zeros(alloc: Global, count: usize) -> Result<Words, Memory> {
        let Ok(zeros) = vec![in alloc; 0u64; count] else {
            return Err(Memory);
        };
        let Ok((table, _first)) = Table::of_words(alloc, &zeros, &()) else {
            return Err(Memory);
        };
        Ok(Words { table, count })
    }

    /// The word at a place.
    #[inline(always)]
    pub(crate) fn get(&self, place: usize) -> u64 {
        if place < self.count {
            self.table.shared.peek(place)
        } else {
            0
        }
    }

    /// Puts a word at a place.
    pub(crate) fn put(&self, place: usize, word: u64) {
        if place < self.count {
            let (_before, _seat) = self.table.shared.swap_new_seat::<Stepping>(place, word);
        }
    }

    /// Adds these digits to the word at a place.
    pub(crate) fn add_bits(&self, place: usize, bits: u64) {
        if place < self.count {
            let (_now, mut seat) = self.table.shared.load_new_seat::<Stepping>(place);
            let _before = self
                .table
                .shared
                .fetch_or::<Stepping>(&mut seat, place, bits);
        }
    }

    /// Takes these digits out of the word at a place.
    pub(crate) fn take_bits(&self, place: usize, bits: u64) {
        if place < self.count {
            let (_now, mut seat) = self.table.shared.load_new_seat::<Stepping>(place);
            let _before = self
                .table
                .shared
                .fetch_and::<Stepping>(&mut seat, place, !bits);
        }
    }

    /// Counts the word at a place up, and answers what it was before.
    pub(crate) fn next_number(&self, place: usize) -> u64 {
        if place < self.count {
            let (_now, mut seat) = self.table.shared.load_new_seat::<Stepping>(place);
            self.table.shared.fetch_add::<Stepping>(&mut seat, place, 1)
        } else {
            0
        }
    }
}
