//! Full boards beside plain walks, and callers of the laws.

ghost use Rattle.std.specs.Prelude.{◌↔◌, IsTrue};
ghost use Rattle.hx_board.specs.Positions.{IsEmpty, IsFull, put};
ghost use Rattle.hx_board.specs.Game.{Wins};

use hx_board::Colour::{Black, White};
use hx_board::{Cell, Colour, Position, Size};
use hx_law::{extra_move, extra_stone, one_winner, winner_of_full};
use hx_test_support::{SMALL_BOARDS, has_chain, numbered};
use std::process::Abort;
use std::test::Fail;

/// Whether no cell is empty.
fn is_full(position: &Position) -> bool
    ensures { IsTrue result ↔ IsFull position.now }
{
    position.empties().is_empty()
}

/// On a full board the winner's sides are joined by a walk, and the loser's are not.
fn compare(rt: &impl Abort, position: &Position) {
    if is_full(position) {
        let winner = winner_of_full(position);
        assert!(rt; has_chain(position, winner), "{position:?}");
        assert!(rt; !has_chain(position, winner.other()), "{position:?}");
    }
}

#[test]
fn winners_of_small_full_boards(rt: HostRuntime) -> Result<(), Fail> {
    for (rows, cols, positions) in SMALL_BOARDS {
        let size = Size::new(rows, cols).ok_or("size")?;
        for number in 0..positions {
            compare(&rt, &numbered(size, number).ok_or("position")?);
        }
    }
    Ok(())
}

/// Who wins with the opponent to move also wins with a stone and the move more.
fn stone_and_move_more(position: &Position, cell: Cell)
    requires { IsEmpty position.now cell }
    ensures { Wins Colour.Black position.now Colour.White
        → Wins Colour.Black (put position.now Colour.Black cell) Colour.Black }
{
    extra_move(position, Black);
    extra_stone(position, Black, Black, cell);
}

/// Where Black wins, White does not.
fn not_both(position: &Position, to_move: Colour)
    ensures { Wins Colour.Black position.now to_move → ¬ Wins Colour.White position.now to_move }
{
    one_winner(position, to_move);
}

#[test]
fn laws_are_called(rt: HostRuntime) -> Result<(), Fail> {
    let size = Size::new(11, 11).ok_or("size")?;
    let position = Position::empty(size);
    let cell = size.cell(5, 5).ok_or("cell")?;
    assert!(rt; position.empties().has(cell));
    stone_and_move_more(&position, cell);
    not_both(&position, White);
    Ok(())
}
