//! Proofs by a link between the two sides, which needs the cells of the link's carrier.

ghost use Rattle.std.specs.Prelude.{IfOk, IfErr};
ghost use Rattle.hx_book.specs.Sights.{Grows};
ghost use Rattle.hx_linkset.specs.LiveOf.{Decides};
ghost use Rattle.hx_limits.specs.Causes.{IsUnstored};
ghost use Rattle.hx_widen.specs.Wide.{IsServed};

use crate::known::{Known, store_known};
use crate::widened::widened;
use crate::wider::end_of;
use hx_board::Colour;
use hx_book::Proofs;
use hx_limits::RanOut;
use hx_linkset::{Derived, LinkSet};
use hx_nodes::{Stored, store_links};
use hx_tree::{Heading, Node, Rule};
use std::sync::Wait;

/// Stores the link where the opponent has all cells outside its carrier.
fn links_wide<P: Proofs, R: Wait>(
    rt: &R,
    proofs: &mut P,
    set: &LinkSet,
    to_move: Colour,
    index: u32,
) -> Result<(), RanOut>
    requires { Decides set.now to_move index }
    ensures grew { Grows (P.sight proofs.old) (P.sight proofs.new) }
    ensures stopped { IfErr result (IsUnstored (P.sight proofs.new)) }
{
    let alloc = set.allocator();
    let winner = set.colour();
    let Derived { steps, places: _ } = set.derivation(&[index])?;
    let Some(position) = widened(set.position(), winner, set.carrier(index)) else {
        return Ok(());
    };
    let heading = Heading {
        position,
        to_move,
        winner,
    };
    let rule = Rule::Links { steps };
    let known = Known::new(alloc);
    store_known(rt, alloc, proofs, &known, Node { heading, rule })?;
    Ok(())
}

/// Stores that a set's player wins by the live link at an index: a proof that serves the position, or one of the
/// position itself.
pub fn widen_links<P: Proofs, R: Wait>(
    rt: &R,
    proofs: &mut P,
    set: &LinkSet,
    to_move: Colour,
    index: u32,
) -> Result<(), RanOut>
    requires { Decides set.now to_move index }
    ensures grew { Grows (P.sight proofs.old) (P.sight proofs.new) }
    ensures served { IfOk result (λ _. IsServed P.is_plain (P.sight proofs.new).list
        set.now.present.board to_move) }
    ensures stopped { IfErr result (IsUnstored (P.sight proofs.new)) }
{
    let tried = links_wide(rt, proofs, set, to_move, index);
    if let Stored::Done = end_of(rt, proofs, set.position(), to_move, tried)? {
        return Ok(());
    }
    store_links(rt, proofs, set, to_move, index)
}
