//! Lines for moves than which another one is better: each pair of cells is judged by itself, in each way, and the order
//! of the better ones is looked up for each pair.

use hx_board::{CELLS, Cell, Colour, Mask, Position};
use hx_inferior::{Kill, dominates};
use hx_tree::Line;

/// Whether a cell is dominated by another one, in some way.
fn is_better(position: &Position, mover: Colour, better: Cell, worse: Cell) -> bool {
    if dominates(position, mover, better, worse, Kill::ByDead) {
        return true;
    }
    for place in 0..CELLS as u8 {
        if let Some(partner) = position.size().cell(place / 11, place % 11)
            && dominates(position, mover, better, worse, Kill::ByPair(partner))
        {
            return true;
        }
    }
    false
}

/// Whether a cell is dominated by one of these.
fn is_under(position: &Position, mover: Colour, cells: Mask, worse: Cell) -> bool {
    for place in 0..CELLS as u8 {
        if let Some(better) = position.size().cell(place / 11, place % 11)
            && cells.has(better)
            && is_better(position, mover, better, worse)
        {
            return true;
        }
    }
    false
}

/// Whether these are right lines in cell order, each for one of the cells, with a better one of them that has no line;
/// and each other cell of them is a better one, or dominated by none without a line.
pub(crate) fn are_under(position: &Position, mover: Colour, cells: Mask, lines: &[Line]) -> bool {
    let mut betters = Mask::empty();
    let mut rest = cells;
    let mut next = 0;
    for line in lines {
        let Line::Under { cell, better, kill } = line else {
            return false;
        };
        if cell.index() < next || !rest.has(*cell) || !cells.has(*better) {
            return false;
        }
        if !dominates(position, mover, *better, *cell, *kill) {
            return false;
        }
        next = cell.index() + 1;
        rest = rest.without(*cell);
        betters = betters.with(*better);
    }
    if !betters.inside(rest) {
        return false;
    }
    for place in 0..CELLS as u8 {
        if let Some(worse) = position.size().cell(place / 11, place % 11)
            && rest.minus(betters).has(worse)
            && is_under(position, mover, rest, worse)
        {
            return false;
        }
    }
    true
}

/// Whether one cell has its turn before another one: cells that the order leaves out come last, in cell order.
fn comes_before(order: &[Cell], one: Cell, other: Cell) -> bool {
    for cell in order {
        if *cell == other {
            return false;
        }
        if *cell == one {
            return true;
        }
    }
    one.index() < other.index()
}

/// Whether a cell is dominated by one of these that comes before another cell.
fn is_under_before(
    position: &Position,
    mover: Colour,
    cells: Mask,
    worse: Cell,
    order: &[Cell],
    later: Cell,
) -> bool {
    for place in 0..CELLS as u8 {
        if let Some(better) = position.size().cell(place / 11, place % 11)
            && cells.has(better)
            && comes_before(order, better, later)
            && is_better(position, mover, better, worse)
        {
            return true;
        }
    }
    false
}

/// Whether no cell without a line that comes before the better cell of a line dominates the line's cell, and none
/// dominates one without a line that comes after it.
pub(crate) fn are_by_order(
    position: &Position,
    mover: Colour,
    cells: Mask,
    order: &[Cell],
    lines: &[Line],
) -> bool {
    let mut rest = cells;
    for line in lines {
        rest = rest.without(line.cell());
    }
    for line in lines {
        if let Line::Under { cell, better, .. } = line
            && is_under_before(position, mover, rest, *cell, order, *better)
        {
            return false;
        }
    }
    for place in 0..CELLS as u8 {
        if let Some(cell) = position.size().cell(place / 11, place % 11)
            && rest.has(cell)
            && is_under_before(position, mover, rest, cell, order, cell)
        {
            return false;
        }
    }
    true
}
