//! What became of a proof.

ghost use Rattle.std.specs.Prelude.{◌≡◌, true, IfOk, IfErr};
ghost use Rattle.hx_tree.specs.Plain.{IsPlain};
ghost use Rattle.hx_tree.specs.Rules.{IsRightNode};
ghost use Rattle.hx_tree.specs.Trees.{headings_of};
ghost use Rattle.hx_book.specs.Sights.{Grows};
ghost use Rattle.hx_packed.specs.Children.{HasNoLinks};
ghost use Rattle.hx_nodes.specs.Stored.{HasEntry, IsNotStored, HadMemory};

use hx_book::Proofs;
use hx_limits::RanOut;
use hx_packed::Offer;
use hx_tree::Node;
use std::sync::Wait;

/// What became of a proof that was to be stored.
#[derive(Clone, Copy, Debug, PartialEq, Eq)]
pub enum Stored {
    /// What was to be stored is there: an entry of the position and mover, or for hx_widen one that serves them.
    Done,

    /// Something that the proof needs is not there.
    Missing,
}

/// Stores a right node, which is plain where the list is. Then the list of proofs has an entry of its position and
/// mover, be it this node or an earlier one; or no slot was left, and the refusal has the node. Memory is wanted for a
/// node with links alone.
pub fn store<P: Proofs, R: Wait>(rt: &R, proofs: &mut P, node: Node) -> Result<(), RanOut>
    requires right { IsRightNode (headings_of (P.sight proofs.old).list) node }
    requires plain { P.is_plain ≡ true → IsPlain node }
    ensures grew { Grows (P.sight proofs.old) (P.sight proofs.new) }
    ensures stored { IfOk result (λ _. HasEntry (P.sight proofs.new).list node.heading.position
        node.heading.to_move) }
    ensures stopped { IfErr result (IsNotStored (P.sight proofs.new) node.heading.position
        node.heading.to_move) }
    ensures memory { HasNoLinks node.rule → IfErr result HadMemory }
{
    let offer = Offer::of(node)?;
    proofs.store(rt, offer)?;
    Ok(())
}
