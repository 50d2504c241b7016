//! Between which vertices useful links are made.
//!
//! The stones of a group lead to the same vertices, so links of each of them would multiply all links without a new
//! connection. One vertex stands for a group: a side, where the group has one, and else its first stone in cell order.
//! Links are made between empty cells, sides and these stones alone.

ghost use Rattle.std.specs.Prelude.{◌≡◌};

use hx_board::{CELLS, Cell, Groups, Mask, Position, VERTICES, Vertex, VertexSet};
use hx_linkset::LinkSet;

/// What each vertex is joined with, and the vertices that links are made of.
#[derive(Clone, Copy)]
pub(crate) struct Ends {
    reaches: [VertexSet; VERTICES],
    stones: Mask,
    empties: Mask,

    /// The stones of the groups that have no side.
    inner: Mask,

    /// The sides, the empty cells, and the stones that stand for their groups.
    useful: VertexSet,
}

impl Ends {
    /// The ends of no position.
    pub(crate) fn none() -> Ends {
        Ends {
            reaches: [VertexSet::empty(); VERTICES],
            stones: Mask::empty(),
            empties: Mask::empty(),
            inner: Mask::empty(),
            useful: VertexSet::empty(),
        }
    }

    pub(crate) fn of(set: &LinkSet) -> Ends {
        let position = set.position();
        let stones = position.stones(set.colour());
        let empties = position.empties();
        let standing = standing_stones(position, set.groups(), stones);
        Ends {
            reaches: reaches_of(set.groups(), position),
            stones,
            empties,
            inner: stones.minus(joined_with_sides(set.groups())),
            useful: VertexSet::of_cells(empties.union(standing))
                .with(Vertex::First)
                .with(Vertex::Last),
        }
    }

    /// What a vertex is joined with.
    pub(crate) fn reach(&self, vertex: &Vertex) -> VertexSet {
        self.reaches[vertex.code() as usize]
    }

    /// Whether two vertices are joined.
    pub(crate) fn are_joined(&self, a: &Vertex, b: &Vertex) -> bool {
        self.reach(a).has(*b)
    }

    /// The vertices that links are made of.
    pub(crate) fn useful(&self) -> VertexSet {
        self.useful
    }

    /// The stones that stand for their groups.
    pub(crate) fn standing(&self) -> Mask {
        self.useful.cells().meet(self.stones)
    }

    /// The empty cells.
    pub(crate) fn empties(&self) -> Mask {
        self.empties
    }

    /// The stones of the groups that have no side.
    pub(crate) fn inner(&self) -> Mask {
        self.inner
    }

    /// Whether a cell has a stone of the player's.
    pub(crate) fn is_stone(&self, cell: &Cell) -> bool {
        self.stones.has(*cell)
    }

    /// The vertex that stands for the group of a stone.
    pub(crate) fn stands_for(&self, position: &Position, stone: &Cell) -> Vertex {
        let reach = self.reach(&Vertex::Of(*stone));
        if reach.has(Vertex::First) {
            return Vertex::First;
        }
        if reach.has(Vertex::Last) {
            return Vertex::Last;
        }
        match reach.cells().meet(self.stones).least(position.size()) {
            Some(least) => Vertex::Of(least),
            None => Vertex::Of(*stone),
        }
    }
}

/// The stones that stand for their groups: of each group that has no side the first one.
pub(crate) fn standing_stones(position: &Position, groups: &Groups, stones: Mask) -> Mask
    requires { groups.now.board ≡ position.now }
{
    let mut standing = Mask::empty();
    let mut rest = stones.minus(joined_with_sides(groups));
    for _ in 0..CELLS as u8 {
        let Some(stone) = rest.least(position.size()) else {
            break;
        };
        standing = standing.with(stone);
        rest = rest.minus(groups.joined_with(Vertex::Of(stone)).cells());
    }
    standing
}

/// The cells that are joined with a side.
fn joined_with_sides(groups: &Groups) -> Mask {
    let first = groups.joined_with(Vertex::First);
    let last = groups.joined_with(Vertex::Last);
    first.union(last).cells()
}

/// What each vertex of the board is joined with.
fn reaches_of(groups: &Groups, position: &Position) -> [VertexSet; VERTICES]
    requires { groups.now.board ≡ position.now }
{
    let size = position.size();
    let mut reaches = [VertexSet::empty(); VERTICES];
    for code in 0..VERTICES as u8 {
        if let Some(vertex) = size.vertex(code) {
            reaches[code as usize] = groups.joined_with(vertex);
        }
    }
    reaches
}
