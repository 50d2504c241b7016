//! Drawn positions beside a plain program of their definition, and beside numbers from outside.

use hx_board::{Cell, Colour, Mask, Position, Size};
use hx_demo::{Draw, one_count};
use rand_core::utils::NextWord;
use rand_pcg::Pcg32;
use std::alloc::Global;
use std::test::Fail;

/// The cells of a board, row by row from the top, each row from the left.
fn cells_of(alloc: Global, size: Size) -> Result<Vec<Cell>, Fail> {
    let mut cells = Vec::new(alloc);
    for row in 0..size.rows() {
        for col in 0..size.cols() {
            cells.push(size.cell(row, col).ok_or("cell")?)?;
        }
    }
    Ok(cells)
}

/// The position that the next words draw, by a list that lets go of one cell at a time.
fn plain_position(alloc: Global, words: &mut Pcg32) -> Result<Position, Fail> {
    let size = Size::new(5, 5).ok_or("size")?;
    let mut left = cells_of(alloc, size)?;
    let mut black = Mask::empty();
    let mut white = Mask::empty();
    for stone in 0..16 {
        let word = words.next_word() as usize;
        let place = word.checked_rem(left.len()).ok_or("no cell is left")?;
        let cell = left.remove(place);
        if stone < 8 {
            black = black.with(cell);
        } else {
            white = white.with(cell);
        }
    }
    Ok(Position::from_masks(size, black, white).ok_or("position")?)
}

#[test]
fn draws_what_a_plain_program_draws(rt: HostRuntime) -> Result<(), Fail> {
    for seed in [0, 7, 2026, u64::MAX] {
        let mut draw = Draw::new(seed);
        let mut words = Pcg32::new(seed, 54);
        for place in 0..50 {
            let plain = plain_position(rt.alloc(), &mut words)?;
            assert_eq!(rt; draw.next(), plain, "{place} of {seed}");
        }
    }
    Ok(())
}

/// The black and the white cells of the first three positions of seed 7. A few lines of Python worked them out from the
/// algorithm PCG XSH RR 64/32 as M. E. O'Neill publishes it (pcg-random.org, `pcg32_srandom_r` and `pcg32_random_r` of
/// the minimal C implementation).
const FIRST_OF_SEVEN: [(u128, u128); 3] = [
    (0x1_2006_0140_4008, 0x18_0480_1814),
    (0x3020_0100_3011, 0x1_8010_0000_480e),
    (0xd008_0600_0810, 0x2014_0000_d00a),
];

#[test]
fn draws_the_published_positions(rt: HostRuntime) {
    let mut draw = Draw::new(7);
    for (black, white) in FIRST_OF_SEVEN {
        let position = draw.next();
        assert_eq!(rt; position.stones(Colour::Black).bits(), black);
        assert_eq!(rt; position.stones(Colour::White).bits(), white);
    }
}

#[test]
fn the_law_is_there() {
    one_count();
}
