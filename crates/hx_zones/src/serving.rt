//! Which zones of a block serve a position.
//!
//! A zone that needs a cell on which the opponent has a stone touches it. So once those are taken away that touch one
//! of the opponent's stones, a needed cell without a stone of the winner's is an empty one.

use crate::bits::{PLACES, take_cell};
use crate::tables::{Any, Column, Zones};

/// The stones that zones are compared with.
#[derive(Clone, Copy)]
pub(crate) struct Stones {
    /// Those of the winner.
    pub(crate) own: u128,

    /// Those of the opponent.
    pub(crate) others: u128,
}

impl Stones {
    /// The empty cells among these.
    #[inline(always)]
    fn empties_among(&self, cells: u128) -> u128 {
        cells & !(self.own | self.others)
    }
}

impl Zones {
    /// The zones of a block that touch none of the opponent's stones.
    #[inline(always)]
    fn untouched(&self, block: u32, stones: &Stones) -> u64 {
        let mut left = self.live(block);
        let mut cells = stones.others & self.any(block, Any::Touched);
        for _ in 0..PLACES {
            if left == 0 {
                break;
            }
            let Some(cell) = take_cell(&mut cells) else {
                break;
            };
            left &= !self.column(block, Column::Touches(cell));
        }
        left
    }

    /// The zones of a block that serve.
    pub(crate) fn serving_in(&self, block: u32, stones: &Stones) -> u64 {
        let mut left = self.untouched(block, stones);
        let mut cells = stones.empties_among(self.any(block, Any::Needed));
        for _ in 0..PLACES {
            if left == 0 {
                break;
            }
            let Some(cell) = take_cell(&mut cells) else {
                break;
            };
            left &= !self.column(block, Column::Needs(cell));
        }
        left
    }

    /// The zones of a block that serve, or would with one stone more of the winner's.
    pub(crate) fn lacking_one_in(&self, block: u32, stones: &Stones) -> u64 {
        let mut left = self.untouched(block, stones);
        let mut once = 0u64;
        let mut cells = stones.empties_among(self.any(block, Any::Needed));
        for _ in 0..PLACES {
            if left == 0 {
                break;
            }
            let Some(cell) = take_cell(&mut cells) else {
                break;
            };
            let lacking = self.column(block, Column::Needs(cell)) & left;
            left &= !(once & lacking);
            once |= lacking;
        }
        left
    }
}
