//! The cells of a board, in a list.

use hx_board::{Cell, Size};
use std::alloc::Global;
use std::test::Fail;

/// The cells of a board, and one beside it.
pub(crate) fn cells_of(alloc: Global, size: Size) -> Result<Vec<Cell>, Fail> {
    let mut cells = Vec::new(alloc);
    for row in 0..size.rows() {
        for col in 0..size.cols() {
            if let Some(cell) = size.cell(row, col) {
                cells.push(cell)?;
            }
        }
    }
    let largest = Size::new(11, 11).ok_or("size")?;
    cells.push(largest.cell(0, size.cols()).ok_or("cell")?)?;
    Ok(cells)
}
