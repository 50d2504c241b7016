//! The vertices of a set, one by one.

ghost use Rattle.std.specs.Prelude.{◌≡◌};

use hx_board::{Vertex, VertexSet};
use std::marker::Model;

/// The vertices of a set: cells in cell order, then the first side and the last. Contracts see it as what is left of
/// the set.
#[derive(Drop)]
pub struct VertexIter {
    left: VertexSet,
}

impl Model for VertexIter {
    ghost use Rattle.std.specs.Prelude.{ℕ};

    ghost Value = { ℕ };

    ghost view = { λ v. v.left };
}

/// Each vertex of a set once.
#[inline(always)]
pub fn each_vertex(set: VertexSet) -> VertexIter
    ensures { result ≡ set }
{
    VertexIter { left: set }
}

impl Iterator for VertexIter {
    ghost use Rattle.std.specs.Iterator.{at_most};
    ghost use Rattle.hx_cells.specs.VerticesLeft.{GivesVertex};

    type Item = Vertex;

    ghost next_gives = { GivesVertex };

    ghost remaining = { λ left. at_most left };

    #[inline(always)]
    fn next(&mut self) -> Option<Vertex> {
        let vertex = self.left.lowest()?;
        self.left = self.left.without_lowest();
        Some(vertex)
    }
}
