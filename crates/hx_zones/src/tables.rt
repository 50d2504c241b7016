//! The table of zones: which word stands where.
//!
//! Zones stand in blocks of 64. For each cell of a board a block has a word that tells which of its zones need a stone
//! there, and one that tells which of them touch it, as a needed stone or as a free cell. So one step on such a word
//! compares 64 zones, and a look at a block begins with the zones that it has, takes away by the touch words of the
//! opponent's stones and by the need words of the empty cells, and ends when none is left, mostly after some ten words.
//!
//! Blocks are taken in turn, and the oldest one is written over. A block may be written over while another worker reads
//! it: what is read then may be no zone that anyone kept. It is a hint all the same.

ghost use Rattle.std.specs.Prelude.{◌+◌, ◌<◌};

use crate::bits::{PLACES, ZONES, both, high, low};
use crate::words::Words;
use crate::zone::KINDS;
use hx_board::Memory;
use std::alloc::Global;

/// How many lists there are for a kind: one for each cell, and one for the zones that need no stone.
pub(crate) const LISTS_OF_KIND: usize = PLACES + 1;

/// The list of the zones that need no stone, and of all zones of a kind in a small table.
pub(crate) const ALWAYS: usize = PLACES;

// The words before the blocks: the newest block of each list, how many zones of each kind need each cell, and how many
// blocks were taken.
const HEADS: usize = 0;

const COUNTS: usize = KINDS * LISTS_OF_KIND;

const TAKEN: usize = COUNTS + KINDS * PLACES;

// Where the first block begins, behind a few words that serve nothing.
const FIRST: usize = 1032;

// The words of a block: its list, the block before it in the list, when it was taken, how many of its places were given
// away, which of its zones stand, which cells some of its zones need or touch, then the words of the cells, and the
// zones themselves.
const LIST: usize = 0;

const NEXT: usize = 1;

const AGE: usize = 2;

const USED: usize = 3;

const LIVE: usize = 4;

const ANY_NEEDED: usize = 5;

const ANY_TOUCHED: usize = 7;

const NEEDS: usize = 9;

const TOUCHES: usize = NEEDS + PLACES;

const ITEMS: usize = TOUCHES + PLACES;

const BLOCK: usize = ITEMS + 4 * ZONES;

/// With fewer blocks each kind has one list alone: each list has a block of its own, so a few zones would take all
/// blocks.
const BLOCKS_WITH_LISTS: u32 = 1024;

/// The table of zones.
#[derive(Drop)]
pub struct Zones {
    words: Words,
    blocks: u32,
}

/// A set of cells of a block: those that some of its zones need, or touch.
#[derive(Clone, Copy)]
pub(crate) enum Any {
    Needed,
    Touched,
}

/// A column of a block: which of its zones need, or touch, a cell.
#[derive(Clone, Copy)]
pub(crate) enum Column {
    Needs(usize),
    Touches(usize),
}

/// The place of the word that names a list's newest block.
fn head_place(list: usize) -> usize {
    HEADS + list % COUNTS
}

/// The place of a word of a block.
#[inline(always)]
fn place_of(block: u32, offset: usize) -> usize
    requires { offset < BLOCK }
{
    FIRST + block as usize * BLOCK + offset
}

/// The first of the two words of a set.
fn any_offset(any: Any) -> usize
    ensures { result + 1 < BLOCK }
{
    match any {
        Any::Needed => ANY_NEEDED,
        Any::Touched => ANY_TOUCHED,
    }
}

/// The word of a column.
#[inline(always)]
fn column_offset(column: Column) -> usize
    ensures { result < BLOCK }
{
    match column {
        Column::Needs(cell) => NEEDS + cell % PLACES,
        Column::Touches(cell) => TOUCHES + cell % PLACES,
    }
}

/// The first of the four words of a zone.
fn item_offset(number: usize) -> usize
    ensures { result + 3 < BLOCK }
{
    ITEMS + 4 * (number % ZONES)
}

impl Zones {
    /// A table of so many blocks, with no zone.
    pub fn with_blocks(alloc: Global, blocks: u32) -> Result<Zones, Memory> {
        let words = Words::zeros(alloc, place_of(blocks, 0))?;
        Ok(Zones { words, blocks })
    }

    /// How many blocks there are. No list has more.
    pub(crate) fn blocks(&self) -> u32 {
        self.blocks
    }

    /// Whether each kind has a list for each cell.
    pub(crate) fn has_lists(&self) -> bool {
        self.blocks >= BLOCKS_WITH_LISTS
    }

    /// The newest block of a list. None where it has no block.
    pub(crate) fn head(&self, list: usize) -> Option<u32> {
        self.block_of(self.words.get(head_place(list)))
    }

    /// The block of a word. None where the word names none.
    #[inline(always)]
    fn block_of(&self, word: u64) -> Option<u32> {
        if word == 0 || word > u64::from(self.blocks) {
            None
        } else {
            Some((word - 1) as u32)
        }
    }

    /// The list of a block.
    pub(crate) fn list_at(&self, block: u32) -> u64 {
        self.words.get(place_of(block, LIST))
    }

    /// When a block was taken: the later, the higher.
    pub(crate) fn age(&self, block: u32) -> u64 {
        self.words.get(place_of(block, AGE))
    }

    /// The block that was its list's newest when a block was taken.
    pub(crate) fn next(&self, block: u32) -> Option<u32> {
        self.block_of(self.words.get(place_of(block, NEXT)))
    }

    /// Which zones of a block stand.
    pub(crate) fn live(&self, block: u32) -> u64 {
        self.words.get(place_of(block, LIVE))
    }

    /// The cells that some zones of a block need or touch.
    #[inline(always)]
    pub(crate) fn any(&self, block: u32, any: Any) -> u128 {
        let offset = any_offset(any);
        let low = self.words.get(place_of(block, offset));
        both(low, self.words.get(place_of(block, offset + 1)))
    }

    /// The zones of a block in a column.
    #[inline(always)]
    pub(crate) fn column(&self, block: u32, column: Column) -> u64 {
        self.words.get(place_of(block, column_offset(column)))
    }

    /// The needed and the free cells of a zone.
    pub(crate) fn item(&self, block: u32, number: usize) -> (u128, u128) {
        let offset = item_offset(number);
        let needed = both(
            self.words.get(place_of(block, offset)),
            self.words.get(place_of(block, offset + 1)),
        );
        let free = both(
            self.words.get(place_of(block, offset + 2)),
            self.words.get(place_of(block, offset + 3)),
        );
        (needed, free)
    }

    /// A zone more of a kind needs a cell. How many did before.
    pub(crate) fn count_need(&self, kind: usize, cell: usize) -> u64 {
        self.words
            .next_number(COUNTS + kind % KINDS * PLACES + cell % PLACES)
    }

    /// A place in a block is given away. How many were before.
    pub(crate) fn give_place(&self, block: u32) -> u64 {
        self.words.next_number(place_of(block, USED))
    }

    /// Takes the oldest block for a list, in front of this one, and gives its first place away. None in a table without
    /// blocks.
    pub(crate) fn take_block(&self, list: usize, before: Option<u32>) -> Option<u32> {
        if self.blocks == 0 {
            return None;
        }
        let age = self.words.next_number(TAKEN);
        let block = (age % u64::from(self.blocks)) as u32;
        for offset in 0..ITEMS {
            self.words.put(place_of(block, offset), 0);
        }
        let next = match before {
            Some(block) => u64::from(block) + 1,
            None => 0,
        };
        self.words.put(place_of(block, LIST), list as u64);
        self.words.put(place_of(block, NEXT), next);
        self.words.put(place_of(block, AGE), age.wrapping_add(1));
        self.words.put(place_of(block, USED), 1);
        self.words.put(head_place(list), u64::from(block) + 1);
        Some(block)
    }

    /// Writes a zone at its place. It does not stand yet.
    pub(crate) fn put_item(&self, block: u32, number: usize, needed: u128, free: u128) {
        let offset = item_offset(number);
        self.words.put(place_of(block, offset), low(needed));
        self.words.put(place_of(block, offset + 1), high(needed));
        self.words.put(place_of(block, offset + 2), low(free));
        self.words.put(place_of(block, offset + 3), high(free));
    }

    /// Adds zones to a column of a block.
    pub(crate) fn add_to_column(&self, block: u32, column: Column, zones: u64) {
        self.words
            .add_bits(place_of(block, column_offset(column)), zones);
    }

    /// Adds cells to a set of a block.
    pub(crate) fn add_to_any(&self, block: u32, any: Any, cells: u128) {
        let offset = any_offset(any);
        self.words.add_bits(place_of(block, offset), low(cells));
        self.words
            .add_bits(place_of(block, offset + 1), high(cells));
    }

    /// These zones of a block stand from now on.
    pub(crate) fn let_stand(&self, block: u32, zones: u64) {
        self.words.add_bits(place_of(block, LIVE), zones);
    }

    /// These zones of a block stand no more.
    pub(crate) fn drop_zones(&self, block: u32, zones: u64) {
        self.words.take_bits(place_of(block, LIVE), zones);
    }
}
