//! Numbers as sets of places: of the cells of a board, and of the zones of a block.

/// How many places a set of cells has. The largest board has fewer cells.
pub(crate) const PLACES: usize = 128;

/// How many zones stand in a block.
pub(crate) const ZONES: usize = 64;

/// 2^64.
const HALF: u128 = 18446744073709551616;

/// Takes the lowest place out of a set of cells.
#[inline(always)]
pub(crate) fn take_cell(cells: &mut u128) -> Option<usize> {
    let all = *cells;
    if all == 0 {
        return None;
    }
    *cells = all & (all - 1);
    Some(all.trailing_zeros() as usize)
}

/// Takes the lowest number out of a set of zones.
#[inline(always)]
pub(crate) fn take_zone(zones: &mut u64) -> Option<usize> {
    let all = *zones;
    if all == 0 {
        return None;
    }
    *zones = all & (all - 1);
    Some(all.trailing_zeros() as usize)
}

/// The highest number in a set of zones.
pub(crate) fn highest(zones: u64) -> Option<usize> {
    if zones == 0 {
        return None;
    }
    Some(63usize.saturating_sub(zones.leading_zeros() as usize))
}

/// The set of one zone.
pub(crate) fn only(number: usize) -> u64 {
    1u64 << (number % ZONES)
}

/// The lower half of a set of cells.
pub(crate) fn low(cells: u128) -> u64 {
    (cells % HALF) as u64
}

/// The upper half.
pub(crate) fn high(cells: u128) -> u64 {
    (cells / HALF) as u64
}

/// A set of cells from its halves.
#[inline(always)]
pub(crate) fn both(low: u64, high: u64) -> u128 {
    (u128::from(high) << 64) | u128::from(low)
}
