//! Floods: what a vertex is joined with.
//!
//! A flood begins with one vertex and takes in, step by step, all own vertices that touch it. Each step is some thirty
//! operations on whole sets, however many stones the board has, and there are no more steps than the way through the
//! group is long. Union-find would look at the stones and their neighbours one by one.

ghost use Rattle.hx_board.specs.Graph.{IsVertex, Joined};
ghost use Rattle.hx_board.specs.VertexSets.{IsSetOf};
ghost use Rattle.hx_board.specs.Floods.{IsReach};

use crate::graphs::Graph;
use crate::vertex_sets::VertexSet;
use crate::vertices::Vertex;

/// What a vertex is joined with: its group, where it is the player's own, and all that touches the group.
pub(crate) fn flood(graph: &Graph, start: Vertex) -> VertexSet
    requires { IsVertex graph.now.board.size start }
    ensures { IsSetOf graph.now.board.size (Joined graph.now.board graph.now.player start) result }
{
    let own = graph.own();
    let mut group = VertexSet::single(start);
    loop {
        let near = graph.spread(group);
        let next = group.union(near.meet(own));
        // A set is a number below 2 ^ 128 and grows at each step, so a flood ends.
        let _bits = next.codes().bits();
        if next == group {
            return group.union(near);
        }
        group = next;
    }
}

/// What a vertex is joined with, as `flood` tells it, or a part of that which has all of a set: the flood stops as soon
/// as it has come to all of them. Three of four steps look at cells alone, which takes half as long.
pub(crate) fn flood_to(graph: &Graph, start: Vertex, wanted: VertexSet) -> VertexSet
    requires { IsVertex graph.now.board.size start }
    ensures { IsReach graph.now.board graph.now.player start wanted result }
{
    let own = graph.own();
    let mut group = VertexSet::single(start);
    loop {
        let near = graph.spread(group);
        let reach = group.union(near);
        if wanted.inside(reach) {
            return reach;
        }
        let next = group.union(near.meet(own));
        if next == group {
            return reach;
        }
        group = graph.grown(graph.grown(graph.grown(next)));
        // A set is a number below 2 ^ 128 and grows at each step, so a flood ends.
        let _bits = group.codes().bits();
    }
}
