//! The calls of hx_board beside the plain programs, on all positions of small boards and on drawn ones.

ghost use Rattle.std.specs.Prelude.{◌≡◌};

use hx_board::{Colour, Groups, Position, Size, VERTICES, chain};
use hx_test_support::{
    Draws, SMALL_BOARDS, empty_count, has_chain, is_vertex, joined_to, numbered,
};
use std::process::Abort;
use std::test::Fail;

/// What one vertex is joined with, by the table of the groups and by walks.
fn compare_joined(rt: &impl Abort, groups: &Groups, position: &Position, player: Colour, code: u8)
    requires { groups.now ≡ record { board = position.now; player = player } }
{
    if let Some(start) = position.size().vertex(code)
        && is_vertex(position.size(), &start)
    {
        let found = groups.joined_with(start);
        let walked = joined_to(position, player, &start);
        assert_eq!(rt; found, walked, "{start:?}: {player:?}, {position:?}");
    }
}

/// What is joined in a player's graph and whether the player has a chain, by the calls and by walks.
fn compare(rt: &impl Abort, position: &Position, player: Colour) {
    let groups = Groups::of(position, player);
    for code in 0..VERTICES as u8 {
        compare_joined(rt, &groups, position, player, code);
    }
    let walked = has_chain(position, player);
    assert_eq!(rt; chain(position, player), walked, "{player:?}, {position:?}");
}

/// All positions of small boards: what is joined, and how many cells are empty.
#[test]
fn each_small_position(rt: HostRuntime) -> Result<(), Fail> {
    for (rows, cols, positions) in SMALL_BOARDS {
        let size = Size::new(rows, cols).ok_or("size")?;
        for number in 0..positions {
            let position = numbered(size, number).ok_or("position")?;
            compare(&rt, &position, Colour::Black);
            compare(&rt, &position, Colour::White);
            assert_eq!(rt; position.empty_count(), empty_count(&position));
        }
    }
    Ok(())
}

/// Positions of boards up to 11 by 11 with a quarter of their cells empty.
#[test]
fn drawn_positions(rt: HostRuntime) -> Result<(), Fail> {
    let mut draws = Draws::new(2026);
    for rows in 1..=11u8 {
        for cols in [rows, 12 - rows] {
            let size = Size::new(rows, cols).ok_or("size")?;
            let quarter = size.all().count() / 4;
            let position = draws.position(size, quarter);
            compare(&rt, &position, Colour::Black);
            compare(&rt, &position, Colour::White);
        }
    }
    Ok(())
}

/// The words of seed 42, as the demonstration program of PCG32 prints them (Melissa O'Neill, pcg-random.org), modulo a
/// million.
#[test]
fn draws_are_the_words_of_the_generator(rt: HostRuntime) {
    let mut draws = Draws::new(42);
    for word in [161_783, 313_097, 475_824, 639_955, 226_955, 331_566] {
        assert_eq!(rt; draws.below(1_000_000), word);
    }
}
