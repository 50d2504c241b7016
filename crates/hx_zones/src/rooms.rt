//! How many blocks a table of zones has.
//!
//! A search keeps some half a zone for each unit, and searches anew what its zones told where they are written over
//! before they serve again. So there is half a place for each unit of the budget, up to a number that depends on the
//! budget, as hints have it: a table for a budget that is never spent would take longer to make than many searches
//! take. A zone serves many positions, so where few positions can come there are fewer places than positions.

use crate::bits::ZONES;

/// How many positions there are for each place at the least.
const POSITIONS: u64 = 16;

/// The fewest blocks.
const FEWEST_BLOCKS: u32 = 16;

/// The most blocks for a budget that is not large: 131,072 zones, in 9 megabytes.
const MOST_BLOCKS: u32 = 2048;

/// The most blocks for a large budget: 4,194,304 zones, in 273 megabytes.
const MOST_BLOCKS_IF_LARGE: u32 = 65536;

/// A budget of more units is large.
const MANY_UNITS: u64 = 1_048_576;

/// The blocks for a budget, on a position with so many empty cells.
pub fn zone_blocks(budget: u64, empties: u32) -> u32 {
    // Each of the cells may stay empty or get a stone of either player, and either may be to move.
    let positions = 3u64.saturating_pow(empties).saturating_mul(2);
    let most = if budget <= MANY_UNITS {
        MOST_BLOCKS
    } else {
        MOST_BLOCKS_IF_LARGE
    };
    let places = (budget / 2).min(positions / POSITIONS);
    let blocks = (places / ZONES as u64).min(u64::from(most)) as u32;
    blocks.max(FEWEST_BLOCKS)
}
