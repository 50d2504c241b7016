//! Proofs by the turned position.

ghost use Rattle.std.specs.Prelude.{IfOk, IfErr};
ghost use Rattle.hx_book.specs.Sights.{Grows};
ghost use Rattle.hx_nodes.specs.Stored.{IsStored, IsNotStored, MissingFor, LacksEither, HadMemory};

use crate::stored::{Stored, store};
use hx_board::{Colour, Position};
use hx_book::{Proofs, look_either};
use hx_limits::RanOut;
use hx_tree::{Heading, Node, Rule};
use std::sync::Wait;

/// Looks the position up in both orientations, and where the turned one alone has an entry stores who wins by it.
/// Missing only where neither has one. In a plain list, which takes no such node, the position itself is looked up
/// alone.
pub fn store_turned<P: Proofs, R: Wait>(
    rt: &R,
    proofs: &mut P,
    position: &Position,
    to_move: Colour,
) -> Result<Stored, RanOut>
    ensures grew { Grows (P.sight proofs.old) (P.sight proofs.new) }
    ensures stored { IfOk result (IsStored (P.sight proofs.new).list position.now to_move) }
    ensures stopped { IfErr result (IsNotStored (P.sight proofs.new) position.now to_move) }
    ensures missing { IfOk result (MissingFor (LacksEither P.is_plain (P.sight proofs.old).list
        (P.sight proofs.new).list position.now to_move)) }
    ensures memory { IfErr result HadMemory }
{
    // The proof takes from here that the position's board is one.
    let _size = position.size();
    if proofs.plain() {
        return match proofs.look(rt, position, to_move) {
            Some(_found) => Ok(Stored::Done),
            None => Ok(Stored::Missing),
        };
    }
    let Some(either) = look_either(rt, proofs, position, to_move) else {
        return Ok(Stored::Missing);
    };
    if !either.turned {
        return Ok(Stored::Done);
    }
    let heading = Heading {
        position: *position,
        to_move,
        winner: either.found.winner,
    };
    let rule = Rule::Turned {
        child: either.found.index,
    };
    store(rt, proofs, Node { heading, rule })?;
    Ok(Stored::Done)
}
