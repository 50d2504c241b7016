//! The members that loops over sets come to, beside the cells of a board in a list.

use super::listed_cells::cells_of;
use hx_board::{Cell, Mask, Size, Vertex, VertexSet};
use hx_cells::{each_cell, each_vertex};
use std::test::Fail;

/// Every second one of some cells.
fn some_of(cells: &[Cell]) -> Mask {
    let mut some = Mask::empty();
    let mut is_wanted = true;
    for cell in cells {
        if is_wanted {
            some = some.with(*cell);
        }
        is_wanted = !is_wanted;
    }
    some
}

#[test]
fn each_cell_of_the_board_once(rt: HostRuntime) -> Result<(), Fail> {
    let size = Size::new(3, 4).ok_or("size")?;
    // The last one lies beside the board.
    let cells = cells_of(rt.alloc(), size)?;
    for set in [Mask::empty(), some_of(cells.as_slice()), size.all()] {
        let mut found = Vec::new(rt.alloc());
        for cell in each_cell(set, size) {
            found.push(cell)?;
        }
        let mut expected = Vec::new(rt.alloc());
        for cell in cells.as_slice() {
            if set.has(*cell) && size.all().has(*cell) {
                expected.push(*cell)?;
            }
        }
        assert_eq!(rt; found, expected);
    }
    Ok(())
}

#[test]
fn each_vertex_once(rt: HostRuntime) -> Result<(), Fail> {
    let size = Size::new(2, 2).ok_or("size")?;
    let cell = size.cell(1, 0).ok_or("cell")?;
    let mut found = Vec::new(rt.alloc());
    let set = VertexSet::empty()
        .with(Vertex::Last)
        .with(Vertex::Of(cell))
        .with(Vertex::First);
    for vertex in each_vertex(set) {
        found.push(vertex)?;
    }
    let expected = [Vertex::Of(cell), Vertex::First, Vertex::Last];
    assert_eq!(rt; found.as_slice(), expected.as_slice());
    Ok(())
}
