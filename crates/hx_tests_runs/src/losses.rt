//! A move that another worker is below looks harder, so that a worker goes to a different one.

ghost use Rattle.std.specs.Prelude.{◌≡◌};
ghost use Rattle.hx_count.specs.Seats.{KeepsSeat};

use super::seats::two_seats;
use hx_board::{Cell, Colour, Position, Size};
use hx_count::{CountSeat, Counts, Hints};
use hx_ordering::{Child, Choice, LOSS_WORDS, Moves, Situation, choose, loss_word};
use hx_pn::{INF, Numbers};
use hx_turn::Orientations;
use std::alloc::{AllocError, Global};
use std::test::Fail;

/// A move to a cell, after which the position has this key. Nobody looked at it yet.
fn move_to(cell: Cell, key: u64) -> Child {
    Child {
        cell,
        key,
        numbers: Numbers { phi: 1, delta: 1 },
    }
}

/// Two moves, after which the positions have loss words of their own.
fn two_moves(alloc: Global, first: Cell, second: Cell) -> Result<Moves, AllocError> {
    let mut children = Vec::new(alloc);
    children.push(move_to(first, 1 << 32))?;
    children.push(move_to(second, 2 << 32))?;
    Ok(Moves {
        order: Vec::new(alloc),
        children,
    })
}

/// Black's turn on an empty board.
fn turn_on(alloc: Global, size: Size) -> Situation {
    Situation {
        filled: Orientations::of(&Position::empty(size)),
        to_move: Colour::Black,
        moved: None,
        limit: Numbers {
            phi: INF,
            delta: INF,
        },
        is_filled: false,
        stones: Vec::new(alloc),
    }
}

/// The place of the move that a turn goes down to.
fn chosen(
    counts: &Counts,
    hints: &Hints,
    seat: &mut CountSeat,
    situation: &Situation,
    moves: &Moves,
) -> Option<usize>
    requires seat { seat.old.made ≡ counts.now }
    requires words { counts.now.limits.words ≡ LOSS_WORDS }
    ensures seat { KeepsSeat seat.old seat.new }
{
    match choose(counts, hints, seat, situation, moves) {
        Choice::Down(down) => Some(down.place),
        _ => None,
    }
}

/// Of two moves that look the same the first one is chosen, but the second one while another worker is below the first.
#[test]
fn workers_go_down_to_different_moves(rt: HostRuntime) -> Result<(), Fail> {
    let alloc = rt.alloc();
    let size = Size::new(2, 2).ok_or("size")?;
    let first = size.cell(0, 0).ok_or("cell")?;
    let second = size.cell(0, 1).ok_or("cell")?;
    let moves = two_moves(alloc, first, second)?;
    let situation = turn_on(alloc, size);
    let hints = Hints::with_words(alloc, 1).or(Err("memory"))?;
    let (counts, mut seat, mut other) = two_seats(alloc, 0)?;
    assert_eq!(rt;
        chosen(&counts, &hints, &mut seat, &situation, &moves),
        Some(0)
    );
    let word = loss_word(1 << 32);
    counts.hold(&mut other, word);
    assert_eq!(rt;
        chosen(&counts, &hints, &mut seat, &situation, &moves),
        Some(1)
    );
    counts.release(&mut other, word);
    assert_eq!(rt;
        chosen(&counts, &hints, &mut seat, &situation, &moves),
        Some(0)
    );
    Ok(())
}
