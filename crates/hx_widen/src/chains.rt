//! Proofs by a chain, which needs no empty cell.

ghost use Rattle.std.specs.Prelude.{IfOk, IfErr};
ghost use Rattle.hx_board.specs.Graph.{HasChain};
ghost use Rattle.hx_book.specs.Sights.{Grows};
ghost use Rattle.hx_limits.specs.Causes.{IsUnstored};
ghost use Rattle.hx_nodes.specs.Stored.{HadMemory};
ghost use Rattle.hx_widen.specs.Wide.{IsServed};

use crate::widened::widened;
use crate::wider::end_of;
use hx_board::{Colour, Mask, Position, chain};
use hx_book::Proofs;
use hx_limits::RanOut;
use hx_nodes::{Stored, store_chain};
use std::sync::Wait;

/// Stores the chain where the opponent has all other cells.
fn chain_wide<P: Proofs, R: Wait>(
    rt: &R,
    proofs: &mut P,
    position: &Position,
    to_move: Colour,
    winner: Colour,
) -> Result<(), RanOut>
    ensures grew { Grows (P.sight proofs.old) (P.sight proofs.new) }
    ensures stopped { IfErr result (IsUnstored (P.sight proofs.new)) }
{
    let Some(wide) = widened(position, winner, Mask::empty()) else {
        return Ok(());
    };
    let has_chain = chain(&wide, winner);
    if !has_chain {
        return Ok(());
    }
    store_chain(rt, proofs, &wide, to_move, winner)
}

/// Stores that a player wins by a chain: a proof that serves the position, or one of the position itself.
pub fn widen_chain<P: Proofs, R: Wait>(
    rt: &R,
    proofs: &mut P,
    position: &Position,
    to_move: Colour,
    winner: Colour,
) -> Result<(), RanOut>
    requires { HasChain position.now winner }
    ensures grew { Grows (P.sight proofs.old) (P.sight proofs.new) }
    ensures served { IfOk result (λ _. IsServed P.is_plain (P.sight proofs.new).list position.now
        to_move) }
    ensures stopped { IfErr result (IsUnstored (P.sight proofs.new)) }
    ensures memory { IfErr result HadMemory }
{
    let tried = chain_wide(rt, proofs, position, to_move, winner);
    if let Stored::Done = end_of(rt, proofs, position, to_move, tried)? {
        return Ok(());
    }
    store_chain(rt, proofs, position, to_move, winner)
}
