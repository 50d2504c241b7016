//! The Full links at each vertex.
//!
//! A search joins a new Full link with those at its ends, and asks at each cell which Full links end there. So for each
//! vertex they stand in one list, in the order in which they came, and each entry has the other end and the carrier
//! with it: who goes along a list looks up no link.
//!
//! A link stands in the lists of its ends, live or not, for as long as it is held. Which of them are live is read off
//! the entries as they are gone along. Lists that are chained by index were slower.

ghost use Rattle.std.specs.Prelude.{◌≡◌, ◌<◌, List, [], ◌∷◌, ◌++◌, length, filter, slice_set, slice_index_or, IfOk, OnOk, OnErr};
ghost use Rattle.hx_board.specs.VertexSets.{IsSomeVertex};
ghost use Rattle.hx_link.specs.declared.links.Link.{Link};
ghost use Rattle.hx_linkset.specs.Fulls.{AreFullLists, fulls_of, is_live_from, live_from, live_at, without_last};

use hx_board::{Mask, Memory, VERTICES, Vertex, VertexSet};
use hx_link::{Kind, Link};
use std::alloc::Global;
use std::marker::Model;

/// A Full link, seen from one of its ends.
#[derive(Clone, Copy, PartialEq, Eq, Debug)]
pub struct FullLink {
    /// The index of the link.
    pub index: u32,

    /// The other end.
    pub to: Vertex,
    pub carrier: Mask,
}

impl FullLink {
    /// Whether the link is live, where the end that it is seen from may be an end.
    #[inline(always)]
    fn is_live(&self, empties: Mask, ends: VertexSet) -> bool
        ensures { result ≡ is_live_from empties ends self.now }
    {
        self.carrier.inside(empties) && ends.has(self.to)
    }
}

/// For each vertex, at its code, the Full links that end there.
#[derive(Drop)]
pub(crate) struct FullLists {
    lists: Vec<Vec<FullLink>>,
}

impl Model for FullLists {
    ghost use Rattle.std.specs.Prelude.{List, ◌≡◌, length};
    ghost use Rattle.hx_board.specs.declared.vertices.TheConstants.{VERTICES};
    ghost use Rattle.hx_linkset.specs.declared.fulls.FullLink.{FullLink};

    ghost Value = { List (List FullLink) };

    ghost use Rattle.hx_linkset.specs.Fulls.{contents_of};

    ghost view = { λ f. contents_of f.lists.items };

    ghost invariant = { λ f. length f.lists.items ≡ VERTICES };
}

impl FullLists {
    /// The lists of no link.
    pub(crate) fn new(alloc: Global) -> Result<FullLists, Memory>
        ensures { IfOk result (AreFullLists []) }
    {
        let Ok(mut lists) = Vec::with_capacity(alloc, VERTICES) else {
            return Err(Memory);
        };
        for _vertex in 0..VERTICES {
            lists.push_reserved(Vec::new(alloc));
        }
        Ok(FullLists { lists })
    }

    /// The Full links at a vertex, in rising order of their indices, live or not.
    #[inline(always)]
    pub(crate) fn at(&self, vertex: &Vertex) -> &[FullLink]
        ensures some { IsSomeVertex vertex.now }
        ensures fulls { (links : List Link) → AreFullLists links self.now
            → result.now ≡ fulls_of links vertex.now }
    {
        self.lists[vertex.code() as usize].as_slice()
    }

    /// Enters a link that comes after all others, where it is Full. Where memory is wanting nothing changes.
    pub(crate) fn add(&mut self, index: u32, link: &Link) -> Result<(), Memory>
        ensures ok { OnOk result ((links : List Link) → length links ≡ index
            → AreFullLists links self.old → AreFullLists (links ++ link.now ∷ []) self.new) }
        ensures err { OnErr result (self.new ≡ self.old) }
    {
        match link.kind {
            Kind::Semi => Ok(()),
            Kind::Full => self.enter(index, link),
        }
    }

    /// Cuts off the link that came last.
    pub(crate) fn cut(&mut self, link: &Link)
        ensures { (links : List Link) → AreFullLists (links ++ link.now ∷ []) self.old
            → AreFullLists links self.new }
    {
        match link.kind {
            Kind::Semi => {}
            Kind::Full => self.leave(link),
        }
    }

    /// Enters a Full link at each of its ends, once where both are the same.
    fn enter(&mut self, index: u32, link: &Link) -> Result<(), Memory>
        requires { link.now.kind ≡ Kind.Full }
        ensures ok { OnOk result ((links : List Link) → length links ≡ index
            → AreFullLists links self.old → AreFullLists (links ++ link.now ∷ []) self.new) }
        ensures err { OnErr result (self.new ≡ self.old) }
    {
        let first = link.a.code();
        let second = link.b.code();
        if self.push(first, index, link, &link.b).is_err() {
            return Err(Memory);
        }
        if first == second {
            return Ok(());
        }
        if self.push(second, index, link, &link.a).is_err() {
            self.pop(first);
            return Err(Memory);
        }
        Ok(())
    }

    /// Takes the Full link that came last away from its ends.
    fn leave(&mut self, link: &Link)
        requires { link.now.kind ≡ Kind.Full }
        ensures { (links : List Link) → AreFullLists (links ++ link.now ∷ []) self.old
            → AreFullLists links self.new }
    {
        let first = link.a.code();
        let second = link.b.code();
        self.pop(first);
        if first == second {
            return;
        }
        self.pop(second);
    }

    /// Puts the entry of a link that has this other end at the end of the list at a code. The entry is made here, where
    /// it is put, since to hand it on would copy it once more.
    fn push(&mut self, code: u8, index: u32, link: &Link, to: &Vertex) -> Result<(), Memory>
        requires { code < VERTICES }
        ensures ok { OnOk result (self.new
            ≡ slice_set self.old code (slice_index_or self.old code []
            ++ record { index = index; to = to.now; carrier = link.now.carrier } ∷ [])) }
        ensures err { OnErr result (self.new ≡ self.old) }
    {
        let full = FullLink {
            index,
            to: *to,
            carrier: link.carrier,
        };
        if self.lists[code as usize].push(full).is_err() {
            return Err(Memory);
        }
        Ok(())
    }

    /// Takes the last entry of the list at a code away, where it has one.
    fn pop(&mut self, code: u8)
        requires { code < VERTICES }
        ensures { self.new
            ≡ slice_set self.old code (without_last (slice_index_or self.old code [])) }
    {
        let _last = self.lists[code as usize].pop();
    }
}

/// The live Full links at a vertex, in rising order of their indices. Contracts see it as the list of those that are
/// left.
#[derive(Drop)]
pub struct FullIter<'a> {
    rest: &'a [FullLink],
    empties: Mask,
    ends: VertexSet,
}

impl<'a> Model for FullIter<'a> {
    ghost use Rattle.std.specs.Prelude.{List};
    ghost use Rattle.hx_linkset.specs.declared.fulls.FullLink.{FullLink};

    ghost Value = { List FullLink };

    ghost use Rattle.hx_linkset.specs.Fulls.{live_from};

    ghost view = { λ f. live_from f.empties f.ends f.rest.now };
}

impl<'a> FullIter<'a> {
    /// Along the list of a vertex, on a board with these empty cells and these vertices that may be ends.
    pub(crate) fn new(
        list: &'a [FullLink],
        vertex: &Vertex,
        empties: Mask,
        ends: VertexSet,
    ) -> FullIter<'a>
        ensures { result ≡ live_at empties ends vertex.now list.now }
    {
        let rest: &[FullLink] = if ends.has(*vertex) { list } else { &[] };
        FullIter {
            rest,
            empties,
            ends,
        }
    }

    /// Those of them that have carriers inside these cells and lead to one of these vertices. Each is tested once.
    #[inline(always)]
    pub(crate) fn within(self, cells: Mask, to: VertexSet) -> FullIter<'a>
        ensures { result ≡ filter (is_live_from cells to) self.entry }
    {
        FullIter {
            rest: self.rest,
            empties: self.empties.meet(cells),
            ends: self.ends.meet(to),
        }
    }
}

impl<'a> Iterator for FullIter<'a> {
    ghost use Rattle.std.specs.Iterator.{YieldsFirst, item_count};

    type Item = FullLink;

    ghost next_gives = { YieldsFirst (λ left. left) };

    ghost remaining = { item_count (λ left. left) };

    #[inline(always)]
    fn next(&mut self) -> Option<FullLink> {
        while let Some((full, rest)) = self.rest.split_first() {
            self.rest = rest;
            if full.is_live(self.empties, self.ends) {
                return Some(*full);
            }
        }
        None
    }
}
