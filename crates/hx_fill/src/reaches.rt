//! All that the open neighbours of a cell are joined with.
//!
//! A player's stone on any other cell joins none of these neighbours with anything.

ghost use Rattle.std.specs.Prelude.{◌≡◌, ℕ, true};
ghost use Rattle.hx_board.specs.declared.vertices.Vertex.{Vertex};
ghost use Rattle.hx_board.specs.Sets.{has};
ghost use Rattle.hx_board.specs.Positions.{IsEmpty};
ghost use Rattle.hx_fill.specs.Makers.{AreVertices, IsAmong};
ghost use Rattle.hx_fill.specs.Views.{HoldsJoined, HoldsReached};

use crate::views::View;
use hx_board::{Mask, VertexSet};
use hx_cells::{each_cell, each_vertex};
use hx_inferior::open_around;

/// All that some of these vertices are joined with.
pub(crate) fn reached_around(view: &View, around: VertexSet) -> VertexSet
    requires { AreVertices view.now.board.size around }
    ensures { (vertex : Vertex) → IsAmong view.now.board.size around vertex
        → HoldsJoined view.now.board view.now.player vertex result }
{
    // The proof takes from here that the position's board is one.
    let _size = view.position().size();
    let mut found = VertexSet::empty();
    for next in each_vertex(around) {
        found = found.union(view.joined_with(next));
    }
    found
}

/// All that an open neighbour of some cell among these is joined with.
pub(crate) fn reached_around_each(view: &View, cells: Mask) -> VertexSet
    requires { (n : ℕ) → has cells n ≡ true → IsEmpty view.now.board n }
    ensures { (cell : ℕ) → has cells cell ≡ true
        → HoldsReached view.now.board view.now.player cell result }
{
    let size = view.position().size();
    let mut found = VertexSet::empty();
    for cell in each_cell(cells, size) {
        let around = open_around(view.position(), view.colour(), cell);
        let near = reached_around(view, around);
        found = found.union(near);
    }
    found
}
