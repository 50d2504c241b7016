//! Pairs of vertices, so that each is tried once.

use hx_board::{VERTICES, Vertex, VertexSet};

/// A set of pairs of vertices.
#[derive(Clone, Copy)]
pub(crate) struct Pairs {
    others: [VertexSet; VERTICES],
}

impl Pairs {
    pub(crate) fn none() -> Pairs {
        Pairs {
            others: [VertexSet::empty(); VERTICES],
        }
    }

    /// Adds a pair, and says whether it is new.
    pub(crate) fn add(&mut self, a: &Vertex, b: &Vertex) -> bool {
        let others = self.others[a.code() as usize];
        self.others[a.code() as usize] = others.with(*b);
        !others.has(*b)
    }
}
