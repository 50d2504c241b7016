//! Dead cells, captured pairs, dominated cells and fill steps, by walks over the board.

use hx_board::{Cell, Colour, Mask, Position, VERTICES, Vertex, VertexSet};
use hx_inferior::{FillStep, Kill};
use hx_test_support::{joined_to, touch};

/// Whether a cell of the board has no stone.
pub(crate) fn is_empty(position: &Position, cell: Cell) -> bool {
    let size = position.size();
    cell.row() < size.rows() && cell.col() < size.cols() && position.at(cell).is_none()
}

/// The position with this stone on the cell, cell by cell. None where the cell is not empty.
pub(crate) fn with_stone(position: &Position, colour: Colour, cell: Cell) -> Option<Position> {
    if !is_empty(position, cell) {
        return None;
    }
    let size = position.size();
    let mut black = Mask::empty();
    let mut white = Mask::empty();
    for row in 0..size.rows() {
        for col in 0..size.cols() {
            if let Some(here) = size.cell(row, col) {
                let stone = if here == cell {
                    Some(colour)
                } else {
                    position.at(here)
                };
                match stone {
                    Some(Colour::Black) => black = black.with(here),
                    Some(Colour::White) => white = white.with(here),
                    None => {}
                }
            }
        }
    }
    Position::from_masks(size, black, white)
}

/// Whether a vertex is a stone of the opponent.
fn is_others(position: &Position, player: Colour, vertex: &Vertex) -> bool {
    match vertex {
        Vertex::Of(cell) => position.at(*cell) == Some(player.other()),
        Vertex::First | Vertex::Last => false,
    }
}

/// The vertices that touch a cell and are no stones of the opponent.
fn open_neighbours(position: &Position, player: Colour, cell: Cell) -> VertexSet {
    let size = position.size();
    let mut found = VertexSet::empty();
    for code in 0..VERTICES as u8 {
        if let Some(vertex) = size.vertex(code)
            && touch(size, player, &Vertex::Of(cell), &vertex)
            && !is_others(position, player, &vertex)
        {
            found = found.with(vertex);
        }
    }
    found
}

/// Whether a walk leads from each of some vertices to each other one.
fn are_joined(position: &Position, player: Colour, vertices: VertexSet) -> bool {
    for code in 0..VERTICES as u8 {
        if let Some(vertex) = position.size().vertex(code)
            && vertices.has(vertex)
            && !vertices.inside(joined_to(position, player, &vertex))
        {
            return false;
        }
    }
    true
}

/// Whether any two open neighbours of the empty cell are joined.
pub(crate) fn is_dead(position: &Position, player: Colour, cell: Cell) -> bool {
    if !is_empty(position, cell) {
        return false;
    }
    let around = open_neighbours(position, player, cell);
    are_joined(position, player, around)
}

/// Whether each of two different empty cells is dead once the player has the other.
pub(crate) fn are_pair(position: &Position, player: Colour, a: Cell, b: Cell) -> bool {
    if a == b || !is_empty(position, a) || !is_empty(position, b) {
        return false;
    }
    match (
        with_stone(position, player, a),
        with_stone(position, player, b),
    ) {
        (Some(with_a), Some(with_b)) => {
            is_dead(&with_b, player, a) && is_dead(&with_a, player, b)
        }
        _ => false,
    }
}

/// Whether the worse cell is killed once the mover has the better one.
pub(crate) fn is_dominated(
    position: &Position,
    mover: Colour,
    better: Cell,
    worse: Cell,
    kill: &Kill,
) -> bool {
    if better == worse || !is_empty(position, worse) {
        return false;
    }
    match (with_stone(position, mover, better), kill) {
        (None, _) => false,
        (Some(next), Kill::ByDead) => is_dead(&next, mover.other(), worse),
        (Some(next), Kill::ByPair(partner)) => are_pair(&next, mover, worse, *partner),
    }
}

/// The position after a fill step of the player who is to win. None where it may not be done.
pub(crate) fn after_step(position: &Position, winner: Colour, step: &FillStep) -> Option<Position> {
    match step {
        FillStep::Other(cell) => with_stone(position, winner.other(), *cell),
        FillStep::Dead(cell) if is_dead(position, winner, *cell) => {
            with_stone(position, winner, *cell)
        }
        FillStep::Pair(a, b) if are_pair(position, winner, *a, *b) => {
            with_stone(&with_stone(position, winner, *a)?, winner, *b)
        }
        _ => None,
    }
}
