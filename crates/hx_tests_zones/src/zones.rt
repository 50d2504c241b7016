//! Each zone that searches left serves only positions that its winner wins.

use super::searches::search;
use hx_board::Colour::{Black, White};
use hx_board::{Colour, Memory, Position, Size};
use hx_sweep::winner;
use hx_test_support::numbered;
use hx_zones::{Kind, Zones};
use std::alloc::Global;
use std::process::Abort;
use std::sync::Wait;
use std::test::Fail;

/// The rows and columns of boards, and how many positions each has.
const BOARDS: [(u8, u8, u32); 3] = [(3, 3, 19_683), (2, 4, 6_561), (4, 2, 6_561)];

/// Each mover with each winner.
const ASKED: [(Colour, Colour); 4] = [
    (Black, Black),
    (Black, White),
    (White, Black),
    (White, White),
];

/// Zones that searches of some positions of a board left.
fn zones_of<R: Wait>(rt: &R, alloc: Global, size: Size) -> Result<Zones, Memory> {
    let zones = Zones::with_blocks(alloc, 64)?;
    for number in [0, 1, 2, 5, 14, 40, 122] {
        if let Some(position) = numbered(size, number) {
            search(rt, alloc, &zones, &position, White)?;
            search(rt, alloc, &zones, &position, Black)?;
        }
    }
    Ok(zones)
}

/// Whether a zone of a kind serves a position. Then its winner wins.
fn serves(rt: &impl Abort, zones: &Zones, position: &Position, kind: Kind) -> bool {
    if zones.serving(position, kind).is_none() {
        return false;
    }
    let mut tried = *position;
    assert_eq!(rt; winner(&mut tried, kind.to_move), kind.winner);
    true
}

/// How many zones serve a position, one for each mover and winner.
fn serving(rt: &impl Abort, zones: &Zones, position: &Position) -> u32 {
    let mut count = 0u32;
    for (to_move, winner) in ASKED {
        if serves(rt, zones, position, Kind { to_move, winner }) {
            count = count.saturating_add(1);
        }
    }
    count
}

/// How many zones serve the positions of a board.
fn serving_all(rt: &impl Abort, zones: &Zones, size: Size, positions: u32) -> u32 {
    let mut count = 0u32;
    for number in 0..positions {
        if let Some(position) = numbered(size, number) {
            count = count.saturating_add(serving(rt, zones, &position));
        }
    }
    count
}

#[test]
fn zones_agree_with_full_searches(rt: HostRuntime) -> Result<(), Fail> {
    for (rows, cols, positions) in BOARDS {
        let size = Size::new(rows, cols).ok_or("size")?;
        let zones = zones_of(&rt, rt.alloc(), size).or(Err("memory"))?;
        assert!(rt; serving_all(&rt, &zones, size, positions) > 0);
    }
    Ok(())
}
