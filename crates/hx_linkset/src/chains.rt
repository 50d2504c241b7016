//! Rings of nodes, linked in both directions in two vectors, with their heads in the same vectors.
//!
//! They are the dancing links of Knuth, who took them from Hitotumatu and Noshita: a node that was taken out remembers
//! its neighbours, so that it is put back by two writes, in opposite order. With heads among the nodes neither has a
//! branch.

ghost use Rattle.std.specs.Prelude.{◌≡◌, ◌+◌, ◌-◌, ◌<◌, ◌≤◌, length, slice_index, OnOk, OnErr, IfOk};
ghost use Rattle.hx_linkset.specs.Rings.{unlinked, relinked, grown, cut, IsInside};
ghost use Rattle.hx_linkset.specs.Held.{head_for, kind_code, AreHeads, LeadToThemselves};
ghost use Rattle.hx_board.specs.VertexSets.{IsSomeVertex};

use hx_board::{Memory, VERTICES, Vertex};
use hx_link::Kind;
use std::alloc::Global;
use std::marker::Model;

/// The heads of one kind: one for each pair of ends, of which each is one of `VERTICES`.
const KIND_HEADS: u16 = (VERTICES * VERTICES) as u16;

/// The node of the first link. The heads of both kinds come before it.
pub(crate) const FIRST_NODE: u16 = 2 * KIND_HEADS;

/// Rings of nodes.
#[derive(Drop)]
pub(crate) struct Chains {
    next: Vec<u16>,
    previous: Vec<u16>,
}

impl Model for Chains {
    ghost use Rattle.hx_linkset.specs.Rings.{Rings};

    ghost Value = { Rings };

    ghost view = { λ c. record { next = c.next.items; previous = c.previous.items } };
}

impl Chains {
    /// A ring for each head, with nothing else in it.
    pub(crate) fn new(alloc: Global) -> Result<Chains, Memory>
        ensures { IfOk result AreHeads }
    {
        let Ok(next) = heads(alloc) else {
            return Err(Memory);
        };
        let Ok(previous) = heads(alloc) else {
            return Err(Memory);
        };
        Ok(Chains { next, previous })
    }

    /// The node after a node in its ring.
    pub(crate) fn after(&self, node: u16) -> u16
        requires { node < length self.now.next }
        ensures { result ≡ slice_index self.now.next node }
    {
        self.next[node as usize]
    }

    /// The same, and a head where there is no such node.
    pub(crate) fn after_any(&self, node: u16) -> u16
        ensures { result ≡ slice_index self.now.next node }
    {
        match self.next.as_slice().get(node as usize) {
            None => 0,
            Some(after) => *after,
        }
    }

    /// Takes a node out.
    pub(crate) fn unlink(&mut self, node: u16)
        requires { IsInside self.old node }
        ensures { self.new ≡ unlinked self.old node }
    {
        let before = self.previous[node as usize];
        let after = self.next[node as usize];
        self.next[before as usize] = after;
        self.previous[after as usize] = before;
    }

    /// Puts a node back where it was.
    pub(crate) fn relink(&mut self, node: u16)
        requires { IsInside self.old node }
        ensures { self.new ≡ relinked self.old node }
    {
        let before = self.previous[node as usize];
        let after = self.next[node as usize];
        self.next[before as usize] = node;
        self.previous[after as usize] = node;
    }

    /// Puts a new node at the end of a ring.
    pub(crate) fn grow(&mut self, head: u16) -> Result<(), Memory>
        requires inside { IsInside self.old head }
        requires room { length self.old.next < 65535 }
        ensures ok { OnOk result (self.new ≡ grown self.old head) }
        ensures err { OnErr result (self.new ≡ self.old) }
    {
        let before = self.previous[head as usize];
        let node = self.next.len() as u16;
        if self.next.reserve(1).is_err() {
            return Err(Memory);
        }
        if self.previous.reserve(1).is_err() {
            return Err(Memory);
        }
        self.next[before as usize] = node;
        self.previous[head as usize] = node;
        self.next.push_reserved(head);
        self.previous.push_reserved(before);
        Ok(())
    }

    /// Takes the last node away, which is the last of its ring.
    pub(crate) fn cut(&mut self, node: u16)
        requires inside { IsInside self.old node }
        requires last { node + 1 ≡ length self.old.next }
        ensures { self.new ≡ cut self.old }
    {
        self.unlink(node);
        self.next.truncate(node as usize);
        self.previous.truncate(node as usize);
    }
}

/// Each head at its own place.
fn heads(alloc: Global) -> Result<Vec<u16>, Memory>
    ensures { IfOk result (λ heads. LeadToThemselves FIRST_NODE heads.items) }
{
    let Ok(mut heads) = Vec::with_capacity(alloc, FIRST_NODE as usize) else {
        return Err(Memory);
    };
    for head in 0..FIRST_NODE {
        heads.push_reserved(head);
    }
    Ok(heads)
}

/// The number of the first head of a kind.
fn first_head(kind: Kind) -> u16
    ensures { result ≡ kind_code kind }
{
    match kind {
        Kind::Full => 0,
        Kind::Semi => KIND_HEADS,
    }
}

/// The head of the links of one kind and pair of ends.
pub(crate) fn head_for(kind: Kind, a: &Vertex, b: &Vertex) -> u16
    ensures value { result ≡ head_for kind a.now b.now }
    ensures small { result < FIRST_NODE }
    ensures a { IsSomeVertex a.now }
    ensures b { IsSomeVertex b.now }
{
    let first = first_head(kind);
    let row = a.code() as u16;
    let col = b.code() as u16;
    first + VERTICES as u16 * row + col
}
