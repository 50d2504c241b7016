//! Entries that a node may have for its children, and the store of a node that was judged over them.
//!
//! What a node at a widened position needs is a guess. So such a node names its children by their places in a short
//! list of entries, is judged by the checker over their headings, and is stored only where the checker says that it is
//! right.
//!
//! No plain list of the program's comes to this crate. One is told apart for the proof alone: by store_known, since not
//! every right node is plain; by widen_all, since no line of a plain node names a better cell; and by fill_missing,
//! since an entry of such a list serves its own position alone.

ghost use Rattle.std.specs.Prelude.{◌≡◌, false, List, [], slice_get, OnOk, OnErr, IfOk, IfErr};
ghost use Rattle.std.specs.declared.option.Option.TheVariants.{Some};
ghost use Rattle.hx_tree.specs.declared.nodes.Node.{Node as Proof};
ghost use Rattle.hx_tree.specs.Rules.{IsRightNode};
ghost use Rattle.hx_tree.specs.Trees.{headings_of};
ghost use Rattle.hx_book.specs.Sights.{Grows};
ghost use Rattle.hx_nodes.specs.Stored.{IsStored, IsNotStored, MissingFor};
ghost use Rattle.hx_widen.specs.Inner.{AreKnown};

use hx_board::Memory;
use hx_book::{Proofs, renamed};
use hx_limits::RanOut;
use hx_nodes::{Stored, store};
use hx_tree::{Heading, Node, check_node};
use std::alloc::Global;
use std::sync::Wait;

/// Entries of the list of proofs: their headings, and their places there.
#[derive(Drop)]
pub(crate) struct Known {
    pub(crate) headings: Vec<Heading>,
    pub(crate) places: Vec<u32>,
}

impl Known {
    /// No entry.
    pub(crate) fn new(alloc: Global) -> Known
        ensures headings { result.headings.items ≡ [] }
        ensures places { result.places.items ≡ [] }
    {
        Known {
            headings: Vec::new(alloc),
            places: Vec::new(alloc),
        }
    }

    /// Adds an entry. Its place among the known ones. Where memory is wanting they stay as they are.
    pub(crate) fn add(&mut self, heading: Heading, place: u32) -> Result<u32, Memory>
        ensures known { OnOk result ((list : List Proof)
            → AreKnown list self.old.headings.items self.old.places.items
            → slice_get (headings_of list) place ≡ Some heading
            → AreKnown list self.new.headings.items self.new.places.items) }
        ensures there { IfOk result (λ place.
            slice_get self.new.headings.items place ≡ Some heading) }
        ensures same_headings { OnErr result (self.new.headings.items ≡ self.old.headings.items) }
        ensures same_places { OnErr result (self.new.places.items ≡ self.old.places.items) }
    {
        let Ok(count) = u32::try_from(self.headings.len()) else {
            return Err(Memory);
        };
        if self.headings.reserve(1).is_err() || self.places.reserve(1).is_err() {
            return Err(Memory);
        }
        self.headings.push_reserved(heading);
        self.places.push_reserved(place);
        Ok(count)
    }
}

/// Stores a node, where the checker says that it is right after the known entries. Missing only where it is not, or
/// where the list is plain.
pub(crate) fn store_known<P: Proofs, R: Wait>(
    rt: &R,
    alloc: Global,
    proofs: &mut P,
    known: &Known,
    node: Node,
) -> Result<Stored, RanOut>
    requires { AreKnown (P.sight proofs.old).list known.now.headings.items known.now.places.items }
    ensures grew { Grows (P.sight proofs.old) (P.sight proofs.new) }
    ensures stored { IfOk result (IsStored (P.sight proofs.new).list node.heading.position
        node.heading.to_move) }
    ensures stopped { IfErr result (IsNotStored (P.sight proofs.new) node.heading.position
        node.heading.to_move) }
    ensures wrong { P.is_plain ≡ false → IfOk result
        (MissingFor (¬ IsRightNode known.now.headings.items node)) }
{
    if proofs.plain() {
        return Ok(Stored::Missing);
    }
    let is_right = check_node(alloc, known.headings.as_slice(), &node)?;
    if !is_right {
        return Ok(Stored::Missing);
    }
    let named = renamed(node, known.places.as_slice());
    store(rt, proofs, named)?;
    Ok(Stored::Done)
}
