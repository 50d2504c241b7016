//! Proofs by a chain.

ghost use Rattle.std.specs.Prelude.{IfOk, IfErr};
ghost use Rattle.hx_board.specs.Graph.{HasChain};
ghost use Rattle.hx_book.specs.Sights.{Grows};
ghost use Rattle.hx_nodes.specs.Stored.{HasEntry, IsNotStored, HadMemory};

use crate::stored::store;
use hx_board::{Colour, Position};
use hx_book::Proofs;
use hx_limits::RanOut;
use hx_tree::{Heading, Node, Rule};
use std::sync::Wait;

/// Stores that a player wins by a chain.
pub fn store_chain<P: Proofs, R: Wait>(
    rt: &R,
    proofs: &mut P,
    position: &Position,
    to_move: Colour,
    winner: Colour,
) -> Result<(), RanOut>
    requires { HasChain position.now winner }
    ensures grew { Grows (P.sight proofs.old) (P.sight proofs.new) }
    ensures stored { IfOk result (λ _. HasEntry (P.sight proofs.new).list position.now to_move) }
    ensures stopped { IfErr result (IsNotStored (P.sight proofs.new) position.now to_move) }
    ensures memory { IfErr result HadMemory }
{
    // The proof takes from here that the position's board is one.
    let _size = position.size();
    let heading = Heading {
        position: *position,
        to_move,
        winner,
    };
    let rule = Rule::Chain;
    store(rt, proofs, Node { heading, rule })
}
