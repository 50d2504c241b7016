//! The groups of one player's stones, and so what is joined.
//!
//! Each group is flooded once, and each vertex then keeps the set of what it is joined with, because that is asked far
//! more often than it changes.

ghost use Rattle.std.specs.Prelude.{◌≡◌, ◌↔◌, IsTrue};
ghost use Rattle.hx_board.specs.Graph.{IsVertex, Joined, HasChain};
ghost use Rattle.hx_board.specs.VertexSets.{IsSetOf};

use crate::colours::Colour;
use crate::floods::flood;
use crate::graphs::Graph;
use crate::positions::Position;
use crate::tables::joined_sets;
use crate::vertex_sets::VertexSet;
use crate::vertices::{VERTICES, Vertex};
use std::marker::Model;

/// The groups of one player's stones on a board, seen as the board and the player. It keeps for each vertex what the
/// vertex is joined with, so to ask takes as long as to read a number.
#[derive(Drop)]
pub struct Groups {
    graph: Graph,
    joined: [VertexSet; VERTICES],
}

impl Model for Groups {
    ghost use Rattle.hx_board.specs.Graph.{Grouped};
    ghost use Rattle.hx_board.specs.Floods.{AreJoined};

    ghost Value = { Grouped };

    ghost view = { λ g. g.graph };

    // It says that the table is exactly `Joined`, which is no proposition in the prover's sense; the toolchain takes
    // it.
    ghost invariant = { λ g. AreJoined g.graph.board g.graph.player g.joined };
}

impl Groups {
    /// Finds the groups of one player. The board is flooded anew at each call, so keep the answer for as long as the
    /// stones stay.
    pub fn of(position: &Position, colour: Colour) -> Groups
        ensures { result ≡ record { board = position.now; player = colour } }
    {
        let graph = Graph::of(position, colour);
        let joined = joined_sets(&graph);
        Groups { graph, joined }
    }

    /// Whether two vertices are joined in the player's graph: they are one, or some walk leads from one to the other on
    /// which all between them are the player's own stones and sides.
    pub fn joined(&self, a: Vertex, b: Vertex) -> bool
        requires a { IsVertex self.now.board.size a }
        requires b { IsVertex self.now.board.size b }
        ensures { IsTrue result ↔ Joined self.now.board self.now.player a b }
    {
        let set = self.joined[a.code() as usize];
        set.has(b)
    }

    /// All that a vertex is joined with in the player's graph, and so the vertex too. For an own vertex that is its
    /// group and what touches the group; for any other cell what touches it and what its touching groups reach.
    pub fn joined_with(&self, vertex: Vertex) -> VertexSet
        requires { IsVertex self.now.board.size vertex }
        ensures { IsSetOf self.now.board.size (Joined self.now.board self.now.player vertex)
            result }
    {
        self.joined[vertex.code() as usize]
    }
}

/// Whether the player has a chain: the player's two sides are joined.
pub fn chain(position: &Position, colour: Colour) -> bool
    ensures { IsTrue result ↔ HasChain position.now colour }
{
    let graph = Graph::of(position, colour);
    let joined = flood(&graph, Vertex::First);
    joined.has(Vertex::Last)
}
