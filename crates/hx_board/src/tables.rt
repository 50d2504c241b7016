//! The table of what each vertex is joined with.
//!
//! A walk that is more than a touch has an own inner vertex. So the table is that of what touches, to which each group
//! adds all that it reaches.

ghost use Rattle.std.specs.Prelude.{◌≡◌, ℕ, ◌<◌, length, slice_index, if◌then◌else◌};
ghost use Rattle.hx_board.specs.Sets.{has, union};
ghost use Rattle.hx_board.specs.Floods.{AreNear, AreJoined};

use crate::cells::{CELLS, Cell};
use crate::floods::flood;
use crate::graphs::Graph;
use crate::vertex_sets::VertexSet;
use crate::vertices::VERTICES;

/// For each vertex the set of those that it is joined with.
pub(crate) fn joined_sets(graph: &Graph) -> [VertexSet; VERTICES]
    ensures { AreJoined graph.now.board graph.now.player result }
{
    let mut sets = [VertexSet::empty(); VERTICES];
    join_top(graph, &mut sets);
    join_rest(graph, &mut sets);
    join_groups(graph, &mut sets);
    sets
}

/// Joins each cell of the first two rows with itself and the cells that touch it.
fn join_top(graph: &Graph, sets: &mut [VertexSet; VERTICES])
    requires { AreNear graph.now.board.size 0 sets.old }
    ensures { AreNear graph.now.board.size 22 sets.new }
{
    for index in 0..22u8 {
        sets[index as usize] = graph.near(Cell::at_index(index));
    }
}

/// Joins each cell of the other rows with itself and the cells that touch it. These lie below those of the cell above
/// it, and to move them is faster than to find them.
fn join_rest(graph: &Graph, sets: &mut [VertexSet; VERTICES])
    requires { AreNear graph.now.board.size 22 sets.old }
    ensures { AreNear graph.now.board.size CELLS sets.new }
{
    for index in 22..CELLS {
        sets[index] = graph.below(sets[index - 11]);
    }
}

/// Joins the vertices that are joined over an own vertex, one group at a time.
fn join_groups(graph: &Graph, sets: &mut [VertexSet; VERTICES])
    requires { AreNear graph.now.board.size CELLS sets.old }
    ensures { AreJoined graph.now.board graph.now.player sets.new }
{
    let mut waiting = graph.own();
    while let Some(start) = waiting.lowest() {
        let reach = flood(graph, start);
        join_all(sets, reach);
        waiting = waiting.minus(reach);
    }
}

/// Joins each vertex of a set with all of them.
pub(crate) fn join_all(sets: &mut [VertexSet; VERTICES], group: VertexSet)
    ensures len { length sets.new ≡ VERTICES }
    ensures sets { (n : ℕ) → n < VERTICES → slice_index sets.new n
        ≡ (if has group n then union (slice_index sets.old n) group else slice_index sets.old n) }
{
    let mut waiting = group;
    while let Some(vertex) = waiting.lowest() {
        let index = vertex.code() as usize;
        sets[index] = sets[index].union(group);
        waiting = waiting.without_lowest();
    }
}
