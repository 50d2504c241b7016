//! Proofs by the turned position, which need the turned cells.

ghost use Rattle.std.specs.Prelude.{IfOk, IfErr};
ghost use Rattle.hx_book.specs.Sights.{Grows};
ghost use Rattle.hx_limits.specs.Causes.{IsUnstored};
ghost use Rattle.hx_nodes.specs.Stored.{HadMemory};
ghost use Rattle.hx_widen.specs.Wide.{IsServedIf};

use crate::wider::{look_wider_either, served};
use hx_board::{Colour, Position};
use hx_book::Proofs;
use hx_limits::RanOut;
use hx_nodes::{Stored, store_turned};
use hx_turn::turned;
use std::sync::Wait;

/// Looks for an entry that serves the position, and where there is none for one that serves the turned position, by
/// which it stores a proof. It is Missing where nothing serves the position; and the list is plain, or nothing serves
/// the turned one either, or entries of two positions that are turned into one another name different winners.
pub fn widen_turned<P: Proofs, R: Wait>(
    rt: &R,
    proofs: &mut P,
    position: &Position,
    to_move: Colour,
) -> Result<Stored, RanOut>
    ensures grew { Grows (P.sight proofs.old) (P.sight proofs.new) }
    ensures served { IfOk result (IsServedIf P.is_plain (P.sight proofs.new).list position.now
        to_move) }
    ensures stopped { IfErr result (IsUnstored (P.sight proofs.new)) }
    ensures memory { IfErr result HadMemory }
{
    // The proof takes from here that the position's board is one.
    let _size = position.size();
    if let Stored::Done = served(rt, proofs, position, to_move) {
        return Ok(Stored::Done);
    }
    let other = turned(position);
    let Some(wider) = look_wider_either(rt, proofs, &other, to_move) else {
        return Ok(Stored::Missing);
    };
    let wide = turned(&wider.position);
    store_turned(rt, proofs, &wide, to_move)?;
    Ok(served(rt, proofs, position, to_move))
}
