//! Proofs that whichever move the opponent makes, a player wins after it.

ghost use Rattle.std.specs.Prelude.{◌≡◌, true, [], IfOk, IfErr};
ghost use Rattle.hx_board.specs.Colours.{other_of};
ghost use Rattle.hx_nodes.specs.Stored.{IsStored, IsNotStored};
ghost use Rattle.hx_fill.specs.Musts.{IsMust};
ghost use Rattle.hx_book.specs.Sights.{Grows};

use crate::lines::lines_for;
use crate::stored::{Stored, store};
use hx_book::Proofs;
use hx_fill::Must;
use hx_limits::RanOut;
use hx_linkset::{Derived, LinkSet};
use hx_tree::{Heading, Node, Rule, Threats};
use std::sync::Wait;

/// Stores that a set's player wins with the opponent to move, where an entry says so of the position after each move
/// that has to be answered. It is Missing where the board is full, or no entry says so after the move to one of the
/// cells that has no line by a better one.
pub fn store_answers<P: Proofs, R: Wait>(
    rt: &R,
    proofs: &mut P,
    set: &LinkSet,
    found: Must,
) -> Result<Stored, RanOut>
    requires must { IsMust set.now found.threats found.cells found.under }
    requires no_lines { P.is_plain ≡ true → found.under ≡ [] }
    ensures grew { Grows (P.sight proofs.old) (P.sight proofs.new) }
    ensures stored { IfOk result (IsStored (P.sight proofs.new).list set.now.present.board
        (other_of set.now.player)) }
    ensures stopped { IfErr result (IsNotStored (P.sight proofs.new) set.now.present.board
        (other_of set.now.player)) }
{
    set.keeps();
    let winner = set.colour();
    let position = *set.position();
    let Some(_some) = position.empties().least(position.size()) else {
        return Ok(Stored::Missing);
    };
    let Must {
        threats,
        cells,
        under,
    } = found;
    let alloc = set.allocator();
    let lines = lines_for(rt, alloc, proofs, &position, winner, cells, under.items())?;
    let Some(lines) = lines else {
        return Ok(Stored::Missing);
    };
    let Derived { steps, places } = set.derivation(threats.items())?;
    let heading = Heading {
        position,
        to_move: winner.other(),
        winner,
    };
    let rule = Rule::All {
        steps,
        threats: Threats::new(places),
        lines,
    };
    store(rt, proofs, Node { heading, rule })?;
    Ok(Stored::Done)
}
