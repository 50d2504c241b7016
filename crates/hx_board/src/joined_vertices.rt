//! Whether any two vertices of a set are joined.
//!
//! That is asked of a few vertices that lie close together, as the neighbours of a cell, on a board of which nothing
//! else is asked. So no table of all groups is made: only groups that touch the set are flooded, each once, and a flood
//! stops where it has come to all of the set.

ghost use Rattle.std.specs.Prelude.{◌≡◌, ℕ, ◌↔◌, IsTrue, true};
ghost use Rattle.hx_board.specs.Sets.{has};
ghost use Rattle.hx_board.specs.Graph.{IsVertex};
ghost use Rattle.hx_board.specs.VertexSets.{IsVertexCode, AreAllJoined};
ghost use Rattle.hx_board.specs.Floods.{IsReached, AreReached};

use crate::colours::Colour;
use crate::floods::flood_to;
use crate::graphs::Graph;
use crate::positions::Position;
use crate::tables::join_all;
use crate::vertex_sets::VertexSet;
use crate::vertices::{VERTICES, Vertex};

/// Whether any two vertices of a set are joined in the player's graph.
pub fn all_joined(position: &Position, player: Colour, set: VertexSet) -> bool
    requires { (n : ℕ) → has set n ≡ true → IsVertexCode position.now.size n }
    ensures { IsTrue result ↔ AreAllJoined position.now player set }
{
    let graph = Graph::of(position, player);
    match set.meet(graph.own()).lowest() {
        // What is joined with an own vertex is joined over it.
        Some(start) => set.inside(flood_to(&graph, start, set)),
        None => joined_by_groups(&graph, set),
    }
}

/// The same, with one flood of each group that touches the set. Of two vertices that are joined one is the other or
/// touches it, or both touch or are in one of these groups.
fn joined_by_groups(graph: &Graph, set: VertexSet) -> bool
    requires { (n : ℕ) → has set n ≡ true → IsVertexCode graph.now.board.size n }
    ensures { IsTrue result ↔ AreAllJoined graph.now.board graph.now.player set }
{
    let mut sets = [VertexSet::empty(); VERTICES];
    let mut waiting = graph.spread(set).meet(graph.own());
    while let Some(start) = waiting.lowest() {
        let reach = flood_to(graph, start, set);
        if set.inside(reach) {
            return true;
        }
        join_all(&mut sets, reach.meet(set));
        waiting = waiting.minus(reach);
    }
    are_each_reached(graph, set, &sets)
}

/// Whether each vertex of a set is or touches each other one, or has it in its set.
fn are_each_reached(graph: &Graph, set: VertexSet, sets: &[VertexSet; VERTICES]) -> bool
    requires { (n : ℕ) → has set n ≡ true → IsVertexCode graph.now.board.size n }
    ensures { IsTrue result
        ↔ AreReached graph.now.board.size graph.now.player set sets.now }
{
    // The proof takes from here that the board is one.
    let _own = graph.own();
    let mut waiting = set;
    while let Some(vertex) = waiting.lowest() {
        if !set.inside(reached_from(graph, sets, &vertex)) {
            return false;
        }
        waiting = waiting.without_lowest();
    }
    true
}

/// A vertex with those that touch it and those in its set.
fn reached_from(graph: &Graph, sets: &[VertexSet; VERTICES], vertex: &Vertex) -> VertexSet
    requires { IsVertex graph.now.board.size vertex.now }
    ensures { IsReached graph.now.board.size graph.now.player sets.now vertex.now result }
{
    let near = graph.touching(*vertex);
    let reached = sets[vertex.code() as usize];
    reached.union(near)
}
