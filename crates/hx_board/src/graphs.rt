//! A player's graph on a board, kept as the masks that a flood needs.
//!
//! They are made once for a position, since a flood that made them at each step would take longer over them than over
//! the step.

ghost use Rattle.std.specs.Prelude.{◌≡◌, ℕ, ◌+◌, ◌-◌, ◌<◌, ◌≤◌, ◌⊎◌, ◌↔◌, true};
ghost use Rattle.hx_board.specs.Sets.{has};
ghost use Rattle.hx_board.specs.Cells.{OnBoard, CellsTouch};
ghost use Rattle.hx_board.specs.Positions.{IsBoard};
ghost use Rattle.hx_board.specs.Graph.{IsFirstLine, IsLastLine, IsVertex, IsOwn};
ghost use Rattle.hx_board.specs.VertexSets.{IsSetOf, AreVertexCodes};
ghost use Rattle.hx_board.specs.Floods.{TouchesCellOf, TouchesOneOf, IsOrTouches, IsGrown};

use crate::cells::Cell;
use crate::colours::Colour;
use crate::masks::Mask;
use crate::positions::Position;
use crate::shifts::{around, left_cells};
use crate::sizes::Size;
use crate::vertex_sets::VertexSet;
use crate::vertices::Vertex;
use std::marker::Model;

/// One player's graph on a board: all cells, the cells that have one to their right, the cells along the player's first
/// and last side, and the player's own vertices.
#[derive(Drop)]
pub(crate) struct Graph {
    position: Position,
    player: Colour,
    all: Mask,
    left: Mask,
    first: Mask,
    last: Mask,
    own: VertexSet,
}

impl Model for Graph {
    ghost use Rattle.hx_board.specs.Graph.{Grouped};
    ghost use Rattle.hx_board.specs.Floods.{AreMasks};

    ghost Value = { Grouped };

    ghost view = { λ g. record { board = g.position; player = g.player } };

    ghost invariant = { λ g. AreMasks g.position g.player g.all g.left g.first g.last g.own };
}

impl Graph {
    pub(crate) fn of(position: &Position, player: Colour) -> Graph
        ensures { result ≡ record { board = position.now; player = player } }
    {
        let size = position.size();
        let all = size.all();
        let left = left_cells(size);
        let first = first_line(size, player);
        let last = last_line(size, player);
        let own = own_vertices(position, player);
        Graph {
            position: *position,
            player,
            all,
            left,
            first,
            last,
            own,
        }
    }

    /// The player's stones and sides.
    pub(crate) fn own(&self) -> VertexSet
        ensures own { IsSetOf self.now.board.size (IsOwn self.now.board self.now.player) result }
        ensures valid { IsBoard self.now.board }
    {
        self.own
    }

    /// The cells that touch a cell of a set.
    pub(crate) fn around(&self, set: Mask) -> Mask
        ensures cells { (cell : ℕ)
            → (has result cell ≡ true) ↔ TouchesCellOf self.now.board.size set cell }
        ensures codes { AreVertexCodes result }
    {
        around(self.position.size(), self.all, self.left, set)
    }

    /// A cell and the cells that touch it.
    pub(crate) fn near(&self, cell: Cell) -> VertexSet
        ensures { OnBoard self.now.board.size cell → (other : ℕ) → (has result other ≡ true)
            ↔ (OnBoard self.now.board.size other × ((other ≡ cell) ⊎ CellsTouch cell other)) }
    {
        let single = VertexSet::single(Vertex::Of(cell));
        single.union(VertexSet::of(self.around(single.codes())))
    }

    /// A vertex and the vertices that touch it.
    pub(crate) fn touching(&self, vertex: Vertex) -> VertexSet
        requires { IsVertex self.now.board.size vertex }
        ensures { IsSetOf self.now.board.size
            (IsOrTouches self.now.board.size self.now.player vertex)
            result }
    {
        // The proof takes from here that the board is one.
        let _own = self.own();
        let single = VertexSet::single(vertex);
        single.union(self.spread(single))
    }

    /// The cells that lie below a cell of a set.
    pub(crate) fn below(&self, set: VertexSet) -> VertexSet
        ensures { (cell : ℕ) → (has result cell ≡ true)
            ↔ (OnBoard self.now.board.size cell × (11 ≤ cell) × (has set (cell - 11) ≡ true)) }
    {
        VertexSet::of(set.codes().later(11).meet(self.all))
    }

    /// The vertices that touch one in a set.
    pub(crate) fn spread(&self, set: VertexSet) -> VertexSet
        ensures { IsSetOf self.now.board.size (TouchesOneOf self.now.board.size self.now.player set)
            result }
    {
        let codes = set.codes();
        let cells = self.around(codes);
        let from_first = self.first.when(set.has(Vertex::First));
        let from_last = self.last.when(set.has(Vertex::Last));
        let to_first = VertexSet::single(Vertex::First).when(codes.meets(self.first));
        let to_last = VertexSet::single(Vertex::Last).when(codes.meets(self.last));
        let to_cells = cells.union(from_first).union(from_last);
        let to_sides = to_first.union(to_last);
        VertexSet::of(to_cells).union(to_sides)
    }

    /// A set with the own cells that touch a vertex in it, but for those that only a side touches.
    pub(crate) fn grown(&self, set: VertexSet) -> VertexSet
        ensures { IsGrown self.now.board self.now.player set result }
    {
        let cells = VertexSet::of(self.around(set.codes()));
        set.union(cells.meet(self.own))
    }
}

/// The cells along a player's first side: for Black those with no cell above them, for White those with none to their
/// left.
fn first_line(size: Size, player: Colour) -> Mask
    ensures { (cell : ℕ)
        → (has result cell ≡ true) ↔ (OnBoard size cell × IsFirstLine player cell) }
{
    let all = size.all();
    match player {
        Colour::Black => all.minus(all.later(11)),
        Colour::White => all.minus(left_cells(size).later(1)),
    }
}

/// The cells along a player's last side: for Black those with no cell below them, for White those with none to their
/// right.
fn last_line(size: Size, player: Colour) -> Mask
    ensures { (cell : ℕ)
        → (has result cell ≡ true) ↔ (OnBoard size cell × IsLastLine size player cell) }
{
    let all = size.all();
    match player {
        Colour::Black => all.minus(all.earlier(11)),
        Colour::White => all.minus(left_cells(size)),
    }
}

/// The player's stones and sides.
fn own_vertices(position: &Position, player: Colour) -> VertexSet
    ensures { IsSetOf position.now.size (IsOwn position.now player) result }
{
    // The proof takes from here that the size is one of a board.
    let _rows = position.size().rows();
    VertexSet::of(position.stones(player))
        .with(Vertex::First)
        .with(Vertex::Last)
}
