//! What the searches of a caller leave for one another: a table of zones, for boards of one size.
//!
//! A zone serves positions of the board that it was found on, so the table is dropped once a search comes on a board of
//! another size. A new table has the room that its first position wants, so that a search on a board that is nearly
//! full waits for no large one; it is dropped too where a later position, with more empty cells, wants a larger one.
//! Most searches make none.
//!
//! A table for one search with a small budget would be full after a few of them. So there is room for many, up to as
//! much as one search has whose budget is not large. To make that takes less than a hundredth of the time of one search
//! that spends its budget.

ghost use Rattle.std.specs.Prelude.{◌≡◌, ◌≤◌, ◌↔◌, IsTrue, IfOk};
ghost use Rattle.hx_solve.specs.Kept.{size_kept};

use hx_board::{Memory, Position, Size};
use hx_zones::{Zones, zone_blocks};
use std::alloc::Global;
use std::mem;

/// For how many searches with a small budget there is room.
const SEARCHES: u64 = 64;

/// So many units of all these searches are room enough.
const ENOUGH_UNITS: u64 = 1_048_576;

/// A table, for boards of which size it is, and how many blocks it was made with.
#[derive(Drop)]
pub(crate) struct KeptTable {
    pub(crate) zones: Zones,
    size: Size,
    blocks: u32,
}

/// The table that searches leave, if one was made.
#[derive(Drop)]
pub struct KeptZones {
    kept: Option<KeptTable>,
}

impl KeptTable {
    /// Whether this serves a search on boards of this size that would make a table of so many blocks.
    fn serves(&self, size: Size, blocks: u32) -> bool
        ensures { IsTrue result ↔ ((self.now.size ≡ size) × (blocks ≤ self.now.blocks)) }
    {
        self.size == size && self.blocks >= blocks
    }
}

impl KeptZones {
    /// Nothing is kept yet.
    pub fn new() -> KeptZones
        ensures { size_kept result ≡ None }
    {
        KeptZones { kept: None }
    }

    /// Takes the table for a search with this budget: what is kept, if that serves it, and else a new one. What serves
    /// no more is dropped before that is made.
    pub(crate) fn take_for(
        &mut self,
        alloc: Global,
        position: &Position,
        budget: u64,
    ) -> Result<KeptTable, Memory>
        ensures size { IfOk result (λ table. table.size ≡ position.now.size) }
        ensures left { size_kept self.new ≡ None }
    {
        let size = position.size();
        let blocks = zone_blocks(units_of_all(budget), position.empty_count());
        if let Some(table) = mem::replace(&mut self.kept, None) {
            if table.serves(size, blocks) {
                return Ok(table);
            }
        }
        let zones = Zones::with_blocks(alloc, blocks)?;
        Ok(KeptTable {
            zones,
            size,
            blocks,
        })
    }

    /// Keeps a table for the next search.
    pub(crate) fn keep(&mut self, table: KeptTable)
        ensures { size_kept self.new ≡ Some table.size }
    {
        self.kept = Some(table);
    }
}

/// The units for which a table has room where each search has this budget.
fn units_of_all(budget: u64) -> u64 {
    budget
        .saturating_mul(SEARCHES)
        .min(ENOUGH_UNITS)
        .max(budget)
}
