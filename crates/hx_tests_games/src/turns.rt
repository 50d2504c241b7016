//! Turned positions that were worked out by hand, their numbers, and callers of the laws.

use hx_board::{Colour, Mask, Position, Size};
use hx_test_support::Draws;
use hx_turn::{
    Orientations, folded_key, is_turned, key, one_key, turned, turned_joins, turned_keeps,
};
use std::test::Fail;

/// A position by the cells of its stones, each told by its row and column.
fn with_stones(size: Size, black: &[(u8, u8)], white: &[(u8, u8)]) -> Result<Position, Fail> {
    let black = cells(size, black)?;
    let white = cells(size, white)?;
    Ok(Position::from_masks(size, black, white).ok_or("stones")?)
}

fn cells(size: Size, places: &[(u8, u8)]) -> Result<Mask, Fail> {
    let mut set = Mask::empty();
    for (row, col) in places {
        set = set.with(size.cell(*row, *col).ok_or("cell")?);
    }
    Ok(set)
}

/// Black a1 and White b1 on three rows and two columns come to b3 and a3.
#[test]
fn three_rows_and_two_columns(rt: HostRuntime) -> Result<(), Fail> {
    let size = Size::new(3, 2).ok_or("size")?;
    let position = with_stones(size, &[(0, 0)], &[(0, 1)])?;
    let expected = with_stones(size, &[(2, 1)], &[(2, 0)])?;
    assert_eq!(rt; turned(&position), expected);
    assert_eq!(rt; turned(&expected), position);
    assert!(rt; is_turned(&position, &expected) && !is_turned(&position, &position));
    turned_joins(&position, Colour::Black);
    turned_keeps(&position, Colour::Black, Colour::White);
    Ok(())
}

/// A position and the turned one have one number, and each mover has another one. With a stone more they are what is
/// made anew.
#[test]
fn one_key_of_both(rt: HostRuntime) -> Result<(), Fail> {
    let mut draws = Draws::new(7);
    for rows in 1..=11u8 {
        let size = Size::new(rows, 12 - rows).ok_or("size")?;
        let position = draws.position(size, 6);
        let both = Orientations::of(&position);
        let black = key(both.turned(), Colour::Black);
        assert_eq!(rt; both.key(Colour::Black), black);
        assert!(rt; both.key(Colour::White) != black);
        one_key(&position, Colour::Black);
        let cell = draws.cell(size, position.empties()).ok_or("full")?;
        let more = both.with(Colour::White, cell);
        assert_eq!(rt; *more.turned(), turned(more.position()));
    }
    Ok(())
}

/// The folded numbers of a position that is not its own turned one differ.
#[test]
fn folded_as_it_stands(rt: HostRuntime) -> Result<(), Fail> {
    let size = Size::new(3, 2).ok_or("size")?;
    let position = with_stones(size, &[(0, 0)], &[(0, 1)])?;
    let here = folded_key(&position, Colour::White);
    let there = folded_key(&turned(&position), Colour::White);
    assert!(rt; here != there);
    assert_eq!(rt; key(&position, Colour::White), here.min(there));
    Ok(())
}
