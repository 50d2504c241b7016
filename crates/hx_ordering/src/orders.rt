//! The order in which moves are tried: by the sum of both players' distances to their sides, less what a move's wins as
//! a reply take off it, and then from the centre.
//!
//! A cell is one step from what it is joined with and from what a Full link leads to. Of all that was tried nothing
//! counts for more: in cell order the openings of 6 by 6 take more than fifteen times the units, and from the centre
//! alone one and a half times; by the distances of one player alone the empty 7 by 7 takes twice the units.

ghost use Rattle.std.specs.Prelude.{IfOk};
ghost use Rattle.hx_board.specs.Graph.{IsVertex};
ghost use Rattle.hx_cells.specs.CellsLeft.{AreCells};
ghost use Rattle.hx_ordering.specs.Orders.{AreEmptyCells};

use crate::replies::MOST;
use hx_board::{CELLS, Cell, Mask, Memory, Size, Vertex, VertexSet};
use hx_cells::{each_cell, each_vertex};
use hx_link::Kind;
use hx_linkset::LinkSet;
use std::alloc::Global;

/// The distance of a cell from which no way leads to the side.
const FAR: u32 = 20;

/// Whether a live Full link joins two vertices.
fn has_full(set: &LinkSet, a: &Vertex, b: &Vertex) -> bool {
    match set.first_of(Kind::Full, *a, *b) {
        Some(_) => true,
        None => false,
    }
}

/// Whether a live Full link joins a vertex with one of some vertices.
fn has_full_to_any(set: &LinkSet, vertex: &Vertex, others: VertexSet) -> bool {
    for other in each_vertex(others) {
        if has_full(set, &other, vertex) {
            return true;
        }
    }
    false
}

/// What some cells are joined with.
fn joined_with_any(set: &LinkSet, cells: Mask) -> VertexSet {
    let size = set.position().size();
    let mut joined = VertexSet::empty();
    for cell in each_cell(cells, size) {
        joined = joined.union(set.groups().joined_with(Vertex::Of(cell)));
    }
    joined
}

/// Those of some cells that a side is joined with or has a Full link to.
fn next_to(set: &LinkSet, side: Vertex, cells: VertexSet) -> VertexSet
    requires { IsVertex set.now.present.board.size side }
{
    let mut found = set.groups().joined_with(side).meet(cells);
    for cell in each_vertex(cells.minus(found)) {
        if has_full(set, &side, &cell) {
            found = found.with(cell);
        }
    }
    found
}

/// Those of some cells that are one step from cells that were reached. Each is asked about until one step is found.
fn one_step_from(set: &LinkSet, reached: VertexSet, cells: VertexSet) -> VertexSet {
    let mut found = joined_with_any(set, reached.cells()).meet(cells);
    for cell in each_vertex(cells.minus(found)) {
        if has_full_to_any(set, &cell, reached) {
            found = found.with(cell);
        }
    }
    found
}

/// Adds a distance to the sums of some cells.
fn add(cells: VertexSet, distance: u32, sums: &mut [u32; CELLS]) {
    for vertex in each_vertex(cells) {
        if let Vertex::Of(cell) = vertex {
            let index = cell.index() as usize;
            sums[index] = sums[index].wrapping_add(distance);
        }
    }
}

/// Adds the distances of all empty cells from a side. A step leads both ways, so the cells at the next distance are
/// those of the rest that are one step from cells at the last one.
fn add_distances(set: &LinkSet, side: Vertex, sums: &mut [u32; CELLS])
    requires { IsVertex set.now.present.board.size side }
{
    let mut left = VertexSet::of_cells(set.position().empties());
    let mut reached = next_to(set, side, left);
    for distance in 1..FAR {
        if reached.is_empty() {
            break;
        }
        left = left.minus(reached);
        add(reached, distance, sums);
        reached = one_step_from(set, reached, left);
    }
    add(left, FAR, sums);
}

/// Twice the distance from the centre, by rows, columns and diagonals.
fn from_centre(size: Size, cell: Cell) -> u32 {
    let down = u32::from(cell.row()).wrapping_mul(2);
    let right = u32::from(cell.col()).wrapping_mul(2);
    let rows = u32::from(size.rows()).wrapping_sub(1);
    let cols = u32::from(size.cols()).wrapping_sub(1);
    let across = down.wrapping_add(right).abs_diff(rows.wrapping_add(cols));
    down.abs_diff(rows)
        .wrapping_add(right.abs_diff(cols))
        .wrapping_add(across)
}

/// The sums of both players' distances to their sides, of each empty cell.
fn sums(own: &LinkSet, others: &LinkSet) -> [u32; CELLS] {
    let mut sums = [0u32; CELLS];
    for set in [own, others] {
        add_distances(set, Vertex::First, &mut sums);
        add_distances(set, Vertex::Last, &mut sums);
    }
    sums
}

/// When each of these cells is tried, by the sums: the one with the least number first.
fn places(size: Size, cells: &[Cell], sums: &[u32; CELLS], earlier: &[u32; CELLS]) -> [u32; CELLS] {
    let mut places = [0u32; CELLS];
    for cell in cells {
        let index = cell.index() as usize;
        places[index] = sums[index]
            .wrapping_mul(1000)
            .wrapping_add(MOST)
            .wrapping_add(from_centre(size, *cell))
            .wrapping_sub(earlier[index]);
    }
    places
}

/// The cells of a set, in cell order.
fn list(alloc: Global, size: Size, cells: Mask) -> Result<Vec<Cell>, Memory>
    ensures { IfOk result (λ found. AreCells size cells found.items) }
{
    let mut found = Vec::with_capacity(alloc, CELLS).map_err(|_| Memory)?;
    for cell in each_cell(cells, size) {
        found.push(cell).map_err(|_| Memory)?;
    }
    Ok(found)
}

/// The empty cells, the best ones first; each as much earlier as `earlier` says, in thousandths of a distance.
pub(crate) fn in_order(
    own: &LinkSet,
    others: &LinkSet,
    earlier: &[u32; CELLS],
) -> Result<Vec<Cell>, Memory>
    ensures { IfOk result (λ order. AreEmptyCells own.now.present.board order.items) }
{
    let position = own.position();
    let size = position.size();
    let sums = sums(own, others);
    let mut found = list(own.allocator(), size, position.empties())?;
    let places = places(size, found.as_slice(), &sums, earlier);
    found
        .sort_by_key(|cell: &Cell| places[cell.index() as usize])
        .map_err(|_| Memory)?;
    Ok(found)
}
