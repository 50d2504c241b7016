//! The Bases that are worth a link.
//!
//! Two empty cells have one where they touch, or where a group of stones that has no side joins
//! them. Those that only a side joins, or a group that has one, have none: links between cells
//! along a side are many, and of no use, since each of these cells has a link to the side.

ghost use Rattle.hx_board.specs.Cells.{OnBoard};

use crate::candidates::{Candidates, Rule};
use crate::covers::is_covered;
use crate::ends::Ends;
use hx_board::{CELLS, Cell, Mask, Memory, Position, Vertex, neighbour_set};
use hx_cells::each_cell;
use hx_link::Kind;
use hx_linkset::LinkSet;

/// The cells that touch a cell, and those that a group without a side joins with it.
fn beside(position: &Position, ends: &Ends, cell: Cell) -> Mask
    requires { OnBoard position.now.size cell }
{
    let mut beside = neighbour_set(position.size(), cell);
    let mut rest = beside.meet(ends.inner());
    for _ in 0..6u8 {
        let Some(stone) = rest.least(position.size()) else {
            break;
        };
        let joined = ends.reach(&Vertex::Of(stone)).cells();
        beside = beside.union(joined);
        rest = rest.minus(joined);
    }
    beside
}

/// Adds the Base of two vertices, where there is no link without a cell yet.
pub(crate) fn push_base(
    set: &LinkSet,
    candidates: &mut Candidates,
    a: &Vertex,
    b: &Vertex,
) -> Result<(), Memory> {
    if is_covered(set, Kind::Full, a, b, Mask::empty()) {
        return Ok(());
    }
    candidates.push(Rule::Base, a, b, Mask::empty())
}

/// Adds the Bases of a vertex with these cells.
fn push_bases_of(
    set: &LinkSet,
    candidates: &mut Candidates,
    vertex: &Vertex,
    cells: Mask,
) -> Result<(), Memory> {
    for cell in each_cell(cells, set.position().size()) {
        push_base(set, candidates, vertex, &Vertex::Of(cell))?;
    }
    Ok(())
}

/// Adds the Bases of the empty cells among these with one another.
fn push_bases_between(
    set: &LinkSet,
    ends: &Ends,
    candidates: &mut Candidates,
    cells: Mask,
) -> Result<(), Memory> {
    let mut rest = cells;
    for _ in 0..CELLS as u8 {
        let Some(cell) = rest.least(set.position().size()) else {
            break;
        };
        rest = rest.without(cell);
        let near = beside(set.position(), ends, cell).meet(rest);
        push_bases_of(set, candidates, &Vertex::Of(cell), near)?;
    }
    Ok(())
}

/// Adds the Bases of the sides, with one another and with these empty cells.
fn push_bases_of_sides(
    set: &LinkSet,
    ends: &Ends,
    candidates: &mut Candidates,
    empties: Mask,
) -> Result<(), Memory> {
    if ends.are_joined(&Vertex::First, &Vertex::Last) {
        push_base(set, candidates, &Vertex::First, &Vertex::Last)?;
    }
    for side in [Vertex::First, Vertex::Last] {
        let near = ends.reach(&side).cells().meet(empties);
        push_bases_of(set, candidates, &side, near)?;
    }
    Ok(())
}

/// Adds the Bases of these stones with these empty cells.
fn push_bases_of_stones(
    set: &LinkSet,
    ends: &Ends,
    candidates: &mut Candidates,
    stones: Mask,
    empties: Mask,
) -> Result<(), Memory> {
    for stone in each_cell(stones, set.position().size()) {
        let stone = Vertex::Of(stone);
        let near = ends.reach(&stone).cells().meet(empties);
        push_bases_of(set, candidates, &stone, near)?;
    }
    Ok(())
}

/// Adds the useful Bases of these cells with one another and with the sides.
pub(crate) fn push_bases(
    set: &LinkSet,
    ends: &Ends,
    candidates: &mut Candidates,
    cells: Mask,
) -> Result<(), Memory> {
    let empties = ends.empties().meet(cells);
    push_bases_of_sides(set, ends, candidates, empties)?;
    push_bases_of_stones(set, ends, candidates, ends.standing().meet(cells), empties)?;
    push_bases_between(set, ends, candidates, empties)
}
