//! Of which links each cell is, as bits.
//!
//! Links that stand one after the other make a block. A block has a row for each cell, with the numbers, within the
//! block, of the links that the cell is of. So which links of a block some cells touch is read off a few rows, and no
//! link is looked at for it.

ghost use Rattle.std.specs.Prelude.{◌≡◌, ℕ, ◌+◌, ◌<◌, ◌≤◌, true, slice_index};
ghost use Rattle.hx_board.specs.Sets.{has};
ghost use Rattle.hx_linkset.specs.Touches.{RowHas};

use crate::limits::MOST_LINKS;
use hx_board::Mask;

/// How many links make a block.
pub(crate) const BLOCK: usize = 64;

/// The most blocks that the links of a set make.
pub(crate) const MOST_BLOCKS: usize = MOST_LINKS / BLOCK;

/// How many numbers a set of cells is of. The largest board has fewer cells.
const PLACES: usize = 128;

/// 2^64.
const HALF: u128 = 18446744073709551616;

/// A block's rows.
#[derive(Clone, Copy)]
pub(crate) struct Block {
    rows: [u64; PLACES],
}

impl Block {
    /// The rows of no link.
    pub(crate) fn new() -> Block {
        Block { rows: [0; PLACES] }
    }

    /// Enters a link at its number, in the rows of its cells.
    #[inline(always)]
    pub(crate) fn enter(&mut self, number: u8, cells: Mask)
        requires { number < BLOCK }
        ensures kept { (cell other : ℕ) → RowHas self.old cell other → RowHas self.new cell other }
        ensures entered { (cell : ℕ) → cell < PLACES → has cells cell ≡ true
            → RowHas self.new cell number }
    {
        let (low, high) = halves(cells);
        enter_half(&mut self.rows, number, 0, low);
        enter_half(&mut self.rows, number, 64, high);
    }

    /// Takes the links from a number on away.
    pub(crate) fn cut(&mut self, number: u8)
        requires { number < BLOCK }
        ensures { (cell other : ℕ) → other < number → RowHas self.old cell other
            → RowHas self.new cell other }
    {
        let kept = (1 << number) - 1;
        for place in 0..PLACES {
            self.rows[place] &= kept;
        }
    }

    /// The links that one of these cells is of.
    #[inline(always)]
    pub(crate) fn links_of(&self, cells: Mask) -> u64
        ensures { (cell number : ℕ) → cell < PLACES → has cells cell ≡ true
            → RowHas self.now cell number → has result number ≡ true }
    {
        let (low, high) = halves(cells);
        half_links(&self.rows, 0, low) | half_links(&self.rows, 64, high)
    }
}

/// The cells below 64, and the others less 64.
#[inline(always)]
fn halves(cells: Mask) -> (u64, u64)
    ensures low { (n : ℕ) → n < 64 → has result.0 n ≡ has cells n }
    ensures high { (n : ℕ) → has result.1 n ≡ has cells (n + 64) }
{
    let bits = cells.bits();
    ((bits % HALF) as u64, (bits / HALF) as u64)
}

/// Enters a link in the rows of these cells, which are counted from a first one on.
#[inline(always)]
fn enter_half(rows: &mut [u64; PLACES], number: u8, first: usize, cells: u64)
    requires number { number < BLOCK }
    requires fits { first + 64 ≤ PLACES }
    ensures kept { (cell other : ℕ) → has (slice_index rows.old cell) other ≡ true
        → has (slice_index rows.new cell) other ≡ true }
    ensures entered { (n : ℕ) → has cells n ≡ true
        → has (slice_index rows.new (first + n)) number ≡ true }
{
    let one = 1 << number;
    let mut left = cells;
    while left != 0 {
        let place = first + left.trailing_zeros() as usize;
        rows[place] |= one;
        left = (left - 1) & left;
    }
}

/// The links in the rows of these cells, which are counted from a first one on.
#[inline(always)]
fn half_links(rows: &[u64; PLACES], first: usize, cells: u64) -> u64
    requires { first + 64 ≤ PLACES }
    ensures { (n number : ℕ) → has cells n ≡ true
        → has (slice_index rows.now (first + n)) number ≡ true → has result number ≡ true }
{
    let mut links = 0;
    let mut left = cells;
    while left != 0 {
        links |= rows[first + left.trailing_zeros() as usize];
        left = (left - 1) & left;
    }
    links
}
