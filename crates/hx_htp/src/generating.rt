//! Choosing a move: the first after which the player is told to win, and else the first empty cell.

ghost use Rattle.std.specs.Prelude.{◌≡◌, ◌↔◌, IsTrue, IfOk, true, false};
ghost use Rattle.hx_board.specs.Positions.{IsEmpty, put};
ghost use Rattle.hx_board.specs.Colours.{other_of};
ghost use Rattle.hx_board.specs.Game.{Wins};
ghost use Rattle.hx_htp.specs.Accounts.{Continues};
ghost use Rattle.hx_htp.specs.Answers.{IsFirstEmpty, MayPlay};
ghost use Rattle.hx_htp.specs.Parts.{IsPassed};

use crate::answerers::{Answerer, Told};
use hx_board::{Cell, Colour, Memory, Position};
use hx_cells::each_cell;
use std::sync::Wait;
use std::thread::Threads;

/// The cell to play. Where the other player is told to win, no move is looked at.
pub(crate) fn generate<R: Threads + Wait + Sync, A: Answerer>(
    rt: &R,
    position: &Position,
    player: Colour,
    first: Cell,
    answerer: &mut A,
) -> Result<Cell, Memory>
    requires { IsFirstEmpty position.now first }
    ensures continues { Continues (A.account answerer.old) (A.account answerer.new) }
    ensures played { IfOk result
        (MayPlay (A.account answerer.old) (A.account answerer.new) position.now player) }
{
    let size = position.size();
    let told = match answerer.solve(rt, position, player) {
        Ok(told) => told,
        Err(Memory) => return Err(Memory),
    };
    if names(told, player.other()) {
        return Ok(first);
    }
    for cell in each_cell(position.empties(), size) {
        match keeps_win(rt, position, player, cell, answerer) {
            Ok(true) => return Ok(cell),
            Ok(false) => {}
            Err(Memory) => return Err(Memory),
        }
    }
    Ok(first)
}

/// Whether the player is told to win after a move.
fn keeps_win<R: Threads + Wait + Sync, A: Answerer>(
    rt: &R,
    position: &Position,
    player: Colour,
    cell: Cell,
    answerer: &mut A,
) -> Result<bool, Memory>
    requires { IsEmpty position.now cell }
    ensures continues { Continues (A.account answerer.old) (A.account answerer.new) }
    ensures yes { IfOk result (λ keeps. keeps ≡ true
        → Wins player (put position.now player cell) (other_of player)) }
    ensures no { IfOk result (λ keeps. keeps ≡ false
        → IsPassed (A.account answerer.old) (A.account answerer.new) position.now player cell) }
{
    let next = position.with(player, cell);
    match answerer.solve(rt, &next, player.other()) {
        Ok(told) => Ok(names(told, player)),
        Err(Memory) => Err(Memory),
    }
}

/// Whether it is told that this player wins.
fn names(told: Told, player: Colour) -> bool
    ensures { IsTrue result ↔ (told ≡ Told.Winner player) }
{
    match told {
        Told::Winner(winner) => winner == player,
        Told::Budget(_) | Told::Slots(_) => false,
    }
}
