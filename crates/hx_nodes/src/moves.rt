//! Proofs by a move of the player to move.

ghost use Rattle.std.specs.Prelude.{IfOk, IfErr};
ghost use Rattle.hx_board.specs.Positions.{IsEmpty};
ghost use Rattle.hx_book.specs.Sights.{Grows};
ghost use Rattle.hx_nodes.specs.Stored.{IsStored, IsNotStored, HadMemory};

use crate::stored::{Stored, store};
use hx_board::{Cell, Colour, Position};
use hx_book::Proofs;
use hx_limits::RanOut;
use hx_tree::{Heading, Node, Rule};
use std::sync::Wait;

/// Stores that the player to move wins by a move to the cell, where an entry says that this player wins the position
/// after it. It is Missing where none says so.
pub fn store_move<P: Proofs, R: Wait>(
    rt: &R,
    proofs: &mut P,
    position: &Position,
    to_move: Colour,
    cell: Cell,
) -> Result<Stored, RanOut>
    requires { IsEmpty position.now cell }
    ensures grew { Grows (P.sight proofs.old) (P.sight proofs.new) }
    ensures stored { IfOk result (IsStored (P.sight proofs.new).list position.now to_move) }
    ensures stopped { IfErr result (IsNotStored (P.sight proofs.new) position.now to_move) }
    ensures memory { IfErr result HadMemory }
{
    // The proof takes from here that the position's board is one.
    let _size = position.size();
    let next = position.with(to_move, cell);
    let Some(found) = proofs.look(rt, &next, to_move.other()) else {
        return Ok(Stored::Missing);
    };
    if found.winner != to_move {
        return Ok(Stored::Missing);
    }
    let heading = Heading {
        position: *position,
        to_move,
        winner: to_move,
    };
    let rule = Rule::Move {
        cell,
        child: found.index,
    };
    store(rt, proofs, Node { heading, rule })?;
    Ok(Stored::Done)
}
