//! The trees of full searches: one whole, and of others who wins, held against the plain game tree.

use hx_board::Colour::{Black, White};
use hx_board::{Colour, Mask, Position, Size};
use hx_sweep::sweep;
use hx_test_support::{Draws, SMALL_BOARDS, numbered, wins};
use hx_tree::{Heading, Node, Rule};
use std::alloc::Global;
use std::process::Abort;
use std::test::Fail;

#[test]
fn one_move_to_win(rt: HostRuntime) -> Result<(), Fail> {
    let size = Size::new(1, 1).ok_or("size")?;
    let a1 = size.cell(0, 0).ok_or("a1")?;
    let empty = Position::empty(size);
    assert!(rt; empty.empty_count() <= 9);
    let nodes = sweep(rt.alloc(), &empty, Black)?;
    let won = Heading {
        position: Position::from_masks(size, Mask::of(1), Mask::empty()).ok_or("won")?,
        to_move: White,
        winner: Black,
    };
    let start = Heading {
        position: empty,
        to_move: Black,
        winner: Black,
    };
    let expected = [
        Node {
            heading: won,
            rule: Rule::Chain,
        },
        Node {
            heading: start,
            rule: Rule::Move { cell: a1, child: 0 },
        },
    ];
    assert_eq!(rt; nodes.as_slice(), expected.as_slice());
    Ok(())
}

/// The root of the tree of a full search names the player who wins the plain game tree.
fn assert_winner(
    rt: &impl Abort,
    alloc: Global,
    position: &Position,
    to_move: Colour,
) -> Result<(), Fail> {
    assert!(rt; position.empty_count() <= 9, "{position:?}");
    let nodes = sweep(alloc, position, to_move)?;
    let winner = nodes.last().ok_or("root")?.heading.winner;
    assert!(rt; wins(position, winner, to_move, 9), "{position:?}");
    Ok(())
}

#[test]
fn each_small_position(rt: HostRuntime) -> Result<(), Fail> {
    for (rows, cols, positions) in SMALL_BOARDS {
        let size = Size::new(rows, cols).ok_or("size")?;
        for number in 0..positions {
            let position = numbered(size, number).ok_or("position")?;
            assert_winner(&rt, rt.alloc(), &position, Black)?;
            assert_winner(&rt, rt.alloc(), &position, White)?;
        }
    }
    Ok(())
}

#[test]
fn nine_empty_cells(rt: HostRuntime) -> Result<(), Fail> {
    let mut draws = Draws::new(2026);
    let size = Size::new(5, 5).ok_or("size")?;
    for to_move in [Black, White] {
        let position = draws.position(size, 9);
        assert_eq!(rt; position.empty_count(), 9);
        assert_winner(&rt, rt.alloc(), &position, to_move)?;
    }
    Ok(())
}
