//! Sets of vertices of a player's graph: cells, and the player's two sides.
//!
//! A set is a mask in which a vertex stands by its code, so whole graphs are united, cut and compared by a few machine
//! instructions, as sets of cells are.

ghost use Rattle.std.specs.Prelude.{◌≡◌, ◌≢◌, ℕ, ◌<◌, ◌↔◌, ◌&&◌, ◌||◌, ◌==◌, not, IsTrue, nat_lt, true, false, MatchOption, IfSome};
ghost use Rattle.hx_board.specs.Sets.{has, insert, remove, union, intersection, difference, IsSubset, IsLowest};
ghost use Rattle.hx_board.specs.VertexSets.{code_of, AreVertexCodes, IsSomeVertex};

use crate::cells::CELLS;
use crate::masks::Mask;
use crate::vertices::Vertex;
use std::marker::Model;

/// A set of vertices. Contracts see it as a set of numbers, in which a vertex stands by its code.
#[derive(Clone, Copy, PartialEq, Eq, Debug)]
pub struct VertexSet {
    members: Mask,
}

impl Model for VertexSet {
    ghost use Rattle.std.specs.Prelude.{ℕ};
    ghost use Rattle.hx_board.specs.VertexSets.{AreVertexCodes};

    ghost Value = { ℕ };

    ghost view = { λ s. s.members };

    ghost invariant = { λ s. AreVertexCodes s.members };

    ghost inverse = { λ n. record { members = n } };
}

impl VertexSet {
    /// The set without a member.
    pub fn empty() -> VertexSet
        ensures { result ≡ 0 }
    {
        VertexSet::of(Mask::empty())
    }

    /// The cells of a set of cells.
    pub fn of_cells(cells: Mask) -> VertexSet
        ensures { (n : ℕ) → has result n ≡ (has cells n && nat_lt n CELLS) }
    {
        VertexSet::of(cells.meet(Mask::range(0, CELLS as u8)))
    }

    /// Whether a vertex is in the set.
    pub fn has(self, vertex: Vertex) -> bool
        ensures { result ≡ has self (code_of vertex) }
    {
        self.members.holds(vertex.code())
    }

    /// The set and a vertex, which may be in the set already.
    pub fn with(self, vertex: Vertex) -> VertexSet
        ensures set { result ≡ insert self (code_of vertex) }
        ensures members { (n : ℕ) → has result n ≡ ((n == code_of vertex) || has self n) }
    {
        VertexSet::of(self.members.including(vertex.code()))
    }

    /// The set without a vertex, which need not be in the set.
    pub fn without(self, vertex: Vertex) -> VertexSet
        ensures set { result ≡ remove self (code_of vertex) }
        ensures members { (n : ℕ) → has result n ≡ (has self n && not (n == code_of vertex)) }
    {
        VertexSet::of(self.members.excluding(vertex.code()))
    }

    /// The cells in the set.
    pub fn cells(self) -> Mask
        ensures { (n : ℕ) → has result n ≡ (has self n && nat_lt n CELLS) }
    {
        self.members.meet(Mask::range(0, CELLS as u8))
    }

    /// What is in one of the two sets, or in both.
    pub fn union(self, other: VertexSet) -> VertexSet
        ensures set { result ≡ union self other }
        ensures members { (n : ℕ) → has result n ≡ (has self n || has other n) }
    {
        VertexSet::of(self.members.union(other.members))
    }

    /// What is in both sets.
    pub fn meet(self, other: VertexSet) -> VertexSet
        ensures set { result ≡ intersection self other }
        ensures members { (n : ℕ) → has result n ≡ (has self n && has other n) }
    {
        VertexSet::of(self.members.meet(other.members))
    }

    /// What is in this set and not in the other.
    pub fn minus(self, other: VertexSet) -> VertexSet
        ensures set { result ≡ difference self other }
        ensures members { (n : ℕ) → has result n ≡ (has self n && not (has other n)) }
    {
        VertexSet::of(self.members.minus(other.members))
    }

    /// Whether each member of this set is in the other.
    pub fn inside(self, other: VertexSet) -> bool
        ensures { IsTrue result ↔ IsSubset self other }
    {
        self.members.inside(other.members)
    }

    /// Whether the set has no member.
    pub fn is_empty(self) -> bool
        ensures empty { IsTrue result ↔ (self ≡ 0) }
        ensures some { result ≡ false → (n : ℕ) × (has self n ≡ true) }
    {
        self.members.is_empty()
    }

    /// The first vertex in the set: cells come first, in cell order, then the first side and the last. None exactly
    /// where the set is empty.
    pub fn lowest(self) -> Option<Vertex>
        ensures first { MatchOption result (self ≡ 0) (λ vertex. IsLowest self (code_of vertex)) }
        ensures some { IfSome result IsSomeVertex }
    {
        match self.members.lowest() {
            None => None,
            Some(code) => Some(Vertex::at_code(code)),
        }
    }

    /// The set without its first vertex.
    pub fn without_lowest(self) -> VertexSet
        requires { self ≢ 0 }
        ensures { (n : ℕ) → IsLowest self n → result ≡ remove self n }
    {
        VertexSet::of(self.members.without_lowest())
    }

    /// The set of one vertex.
    pub(crate) fn single(vertex: Vertex) -> VertexSet
        ensures { result ≡ insert 0 (code_of vertex) }
    {
        VertexSet::of(Mask::single(vertex.code()))
    }

    /// The set where it is wanted, and else the empty set.
    pub(crate) fn when(self, is_wanted: bool) -> VertexSet
        ensures { (n : ℕ) → has result n ≡ (is_wanted && has self n) }
    {
        VertexSet::of(self.members.when(is_wanted))
    }

    /// The set of the vertices that have these codes.
    pub(crate) fn of(members: Mask) -> VertexSet
        requires { AreVertexCodes members }
        ensures { result ≡ members }
    {
        VertexSet { members }
    }

    /// The codes of the members.
    pub(crate) fn codes(self) -> Mask
        ensures value { result ≡ self }
        ensures small { AreVertexCodes self }
    {
        self.members
    }
}
