//! Proofs by a move, which need the move's cell and what the proof after it needs.

ghost use Rattle.std.specs.Prelude.{IfOk, IfErr};
ghost use Rattle.hx_board.specs.Positions.{IsEmpty};
ghost use Rattle.hx_book.specs.Sights.{Grows};
ghost use Rattle.hx_limits.specs.Causes.{IsUnstored};
ghost use Rattle.hx_widen.specs.Wide.{IsServedIf};

use crate::widened::lifted;
use crate::wider::{end_of, fill_missing};
use hx_board::{Cell, Colour, Mask, Position};
use hx_book::{Proofs, Wider};
use hx_limits::RanOut;
use hx_nodes::{Stored, store_move};
use std::alloc::Global;
use std::sync::Wait;

/// Stores the move where the opponent has all cells that this entry, which serves the position after it, does not need.
fn move_wide<P: Proofs, R: Wait>(
    rt: &R,
    proofs: &mut P,
    wider: &Wider,
    to_move: Colour,
    cell: Cell,
) -> Result<(), RanOut>
    ensures grew { Grows (P.sight proofs.old) (P.sight proofs.new) }
    ensures stopped { IfErr result (IsUnstored (P.sight proofs.new)) }
{
    let moved = Mask::empty().with(cell);
    let Some(wide) = lifted(&wider.position, to_move, moved) else {
        return Ok(());
    };
    let is_empty = wide.empties().has(cell);
    if !is_empty {
        return Ok(());
    }
    store_move(rt, proofs, &wide, to_move, cell)?;
    Ok(())
}

/// Stores that the player to move wins by a move to the cell, where an entry that serves the position after it says so:
/// a proof that serves the position, or one of the position itself. It is Missing where no entry that says so serves
/// the position after the move, or an entry of that position names the opponent.
pub fn widen_move<P: Proofs, R: Wait>(
    rt: &R,
    alloc: Global,
    proofs: &mut P,
    position: &Position,
    to_move: Colour,
    cell: Cell,
) -> Result<Stored, RanOut>
    requires { IsEmpty position.now cell }
    ensures grew { Grows (P.sight proofs.old) (P.sight proofs.new) }
    ensures served { IfOk result (IsServedIf P.is_plain (P.sight proofs.new).list position.now
        to_move) }
    ensures stopped { IfErr result (IsUnstored (P.sight proofs.new)) }
{
    let next = position.with(to_move, cell);
    let other = to_move.other();
    let Some(wider) = proofs.look_wider(rt, &next, other, to_move) else {
        return Ok(Stored::Missing);
    };
    let tried = move_wide(rt, proofs, &wider, to_move, cell);
    if let Stored::Done = end_of(rt, proofs, position, to_move, tried)? {
        return Ok(Stored::Done);
    }
    fill_missing(rt, alloc, proofs, &next, &wider, other)?;
    store_move(rt, proofs, position, to_move, cell)
}
