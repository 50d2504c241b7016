//! Proofs by what fill-in leaves.

ghost use Rattle.std.specs.Prelude.{IfOk, IfErr};
ghost use Rattle.hx_fill.specs.Fills.{IsFillIn};
ghost use Rattle.hx_book.specs.Sights.{Grows};
ghost use Rattle.hx_nodes.specs.Stored.{IsStored, IsNotStored};

use crate::stored::{Stored, store};
use hx_board::{Colour, Position};
use hx_book::Proofs;
use hx_fill::{Filled, steps_for};
use hx_limits::RanOut;
use hx_tree::{Heading, Node, Rule};
use std::alloc::Global;
use std::sync::Wait;

/// Stores who wins a position, where an entry says who wins it after fill-in. It is Missing where none says so, where
/// nothing was filled, or where the list is plain.
pub fn store_fill<P: Proofs, R: Wait>(
    rt: &R,
    alloc: Global,
    proofs: &mut P,
    position: &Position,
    to_move: Colour,
    filled: &Filled,
) -> Result<Stored, RanOut>
    requires { IsFillIn position.now filled.now.steps.items filled.now.position }
    ensures grew { Grows (P.sight proofs.old) (P.sight proofs.new) }
    ensures stored { IfOk result (IsStored (P.sight proofs.new).list position.now to_move) }
    ensures stopped { IfErr result (IsNotStored (P.sight proofs.new) position.now to_move) }
{
    // The proof takes from here that the position's board is one.
    let _size = position.size();
    if proofs.plain() || filled.steps.is_empty() {
        return Ok(Stored::Missing);
    }
    let Some(found) = proofs.look(rt, &filled.position, to_move) else {
        return Ok(Stored::Missing);
    };
    let steps = steps_for(alloc, filled, found.winner)?;
    let heading = Heading {
        position: *position,
        to_move,
        winner: found.winner,
    };
    let rule = Rule::Fill {
        steps,
        child: found.index,
    };
    store(rt, proofs, Node { heading, rule })?;
    Ok(Stored::Done)
}
