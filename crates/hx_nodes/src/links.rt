//! Proofs by a link between the two sides.

ghost use Rattle.std.specs.Prelude.{IfOk, IfErr};
ghost use Rattle.hx_book.specs.Sights.{Grows};
ghost use Rattle.hx_linkset.specs.LiveOf.{Decides};
ghost use Rattle.hx_nodes.specs.Stored.{HasEntry, IsNotStored};

use crate::stored::store;
use hx_board::Colour;
use hx_book::Proofs;
use hx_limits::RanOut;
use hx_linkset::{Derived, LinkSet};
use hx_tree::{Heading, Node, Rule};
use std::sync::Wait;

/// Stores that a set's player wins by the live link at an index.
pub fn store_links<P: Proofs, R: Wait>(
    rt: &R,
    proofs: &mut P,
    set: &LinkSet,
    to_move: Colour,
    index: u32,
) -> Result<(), RanOut>
    requires { Decides set.now to_move index }
    ensures grew { Grows (P.sight proofs.old) (P.sight proofs.new) }
    ensures stored { IfOk result (λ _. HasEntry (P.sight proofs.new).list set.now.present.board
        to_move) }
    ensures stopped { IfErr result (IsNotStored (P.sight proofs.new) set.now.present.board
        to_move) }
{
    set.keeps();
    let Derived { steps, places: _ } = set.derivation(&[index])?;
    let heading = Heading {
        position: *set.position(),
        to_move,
        winner: set.colour(),
    };
    let rule = Rule::Links { steps };
    store(rt, proofs, Node { heading, rule })
}
