//! Which cells a cell can be better than.
//!
//! It is found for each worse cell, and asked for each better one. So what is found for a worse cell is written down
//! with each cell that can be better than it.

ghost use Rattle.std.specs.Prelude.{◌≡◌, ℕ, true, length, slice_index};
ghost use Rattle.hx_board.specs.Sets.{has};
ghost use Rattle.hx_board.specs.Cells.{OnBoard};
ghost use Rattle.hx_fill.specs.Unders.{AreEmpties, HoldDominated};

use crate::dominations::BothGroups;
use hx_board::{CELLS, Cell, Mask, Size};
use hx_cells::each_cell;

/// For each of some empty cells, at its index, those of them that it can be better than.
pub(crate) fn candidates_of(both: &BothGroups<'_>, size: Size, cells: Mask) -> [Mask; CELLS]
    requires size { both.now.position.size ≡ size }
    requires cells { AreEmpties both.now.position cells }
    ensures { HoldDominated both.now.position both.now.mover cells 0 result }
{
    let mut found = [Mask::empty(); CELLS];
    for worse in each_cell(cells, size) {
        let killers = both.killers(worse).meet(cells);
        add_to_each(&mut found, size, killers, worse);
    }
    found
}

/// Adds a cell to the sets of some cells of the board.
fn add_to_each(sets: &mut [Mask; CELLS], size: Size, places: Mask, cell: Cell)
    ensures count { length sets.new ≡ CELLS }
    ensures kept { (n m : ℕ) → has (slice_index sets.old n) m ≡ true
        → has (slice_index sets.new n) m ≡ true }
    ensures added { (n : ℕ) → OnBoard size n → has places n ≡ true
        → has (slice_index sets.new n) cell ≡ true }
{
    for place in each_cell(places, size) {
        let index = place.index() as usize;
        sets[index] = sets[index].with(cell);
    }
}
