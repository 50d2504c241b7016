//! What touches and what is joined, by walking from vertex to vertex.

ghost use Rattle.std.specs.Prelude.{◌↔◌, IsTrue};
ghost use Rattle.hx_board.specs.Graph.{IsVertex};

use hx_board::{CELLS, Cell, Colour, Position, Size, VERTICES, Vertex, VertexSet};

/// Whether two cells touch: the steps from a cell to those that touch it are one left, one right, one up, one down, one
/// up and right, one down and left.
fn cells_touch(cell: Cell, other: Cell) -> bool {
    let down = other.row() as i8 - cell.row() as i8;
    let right = other.col() as i8 - cell.col() as i8;
    matches!(
        (down, right),
        (0, -1) | (0, 1) | (-1, 0) | (1, 0) | (-1, 1) | (1, -1)
    )
}

/// Whether a cell lies along a side of the player: the top and the bottom are Black's, the left and the right White's.
fn is_along(size: Size, player: Colour, cell: Cell, side: &Vertex) -> bool {
    match (player, side) {
        (Colour::Black, Vertex::First) => cell.row() == 0,
        (Colour::Black, Vertex::Last) => cell.row() + 1 == size.rows(),
        (Colour::White, Vertex::First) => cell.col() == 0,
        (Colour::White, Vertex::Last) => cell.col() + 1 == size.cols(),
        _ => false,
    }
}

/// Whether two vertices of the player's graph touch. The two sides do not.
pub fn touch(size: Size, player: Colour, vertex: &Vertex, other: &Vertex) -> bool {
    match (vertex, other) {
        (Vertex::Of(cell), Vertex::Of(next)) => cells_touch(*cell, *next),
        (Vertex::Of(cell), side) => is_along(size, player, *cell, side),
        (side, Vertex::Of(cell)) => is_along(size, player, *cell, side),
        _ => false,
    }
}

/// Whether this is a vertex of a player's graph on a board of this size.
pub fn is_vertex(size: Size, vertex: &Vertex) -> bool
    ensures { IsTrue result ↔ IsVertex size vertex.now }
{
    match vertex {
        Vertex::Of(cell) => cell.row() < size.rows() && cell.col() < size.cols(),
        Vertex::First | Vertex::Last => true,
    }
}

/// How many cells have no stone.
pub fn empty_count(position: &Position) -> u32 {
    let size = position.size();
    let mut count = 0;
    for row in 0..size.rows() {
        for col in 0..size.cols() {
            if let Some(cell) = size.cell(row, col)
                && position.at(cell).is_none()
                && count < CELLS as u32
            {
                count += 1;
            }
        }
    }
    count
}

/// Whether a vertex is a stone or a side of the player.
pub fn is_own(position: &Position, player: Colour, vertex: &Vertex) -> bool {
    match vertex {
        Vertex::Of(cell) => position.at(*cell) == Some(player),
        Vertex::First | Vertex::Last => true,
    }
}

/// The vertices of the board that touch one.
fn around(size: Size, player: Colour, here: &Vertex) -> VertexSet {
    let mut found = VertexSet::empty();
    for code in 0..VERTICES as u8 {
        if let Some(next) = size.vertex(code)
            && touch(size, player, here, &next)
        {
            found = found.with(next);
        }
    }
    found
}

/// The own vertices among some.
fn own_of(position: &Position, player: Colour, vertices: VertexSet) -> VertexSet {
    let mut own = VertexSet::empty();
    for code in 0..VERTICES as u8 {
        if let Some(next) = position.size().vertex(code)
            && vertices.has(next)
            && is_own(position, player, &next)
        {
            own = own.with(next);
        }
    }
    own
}

/// The vertices that are joined to one: itself, and those to which a walk leads whose inner vertices are all the
/// player's own.
pub fn joined_to(position: &Position, player: Colour, start: &Vertex) -> VertexSet {
    let size = position.size();
    let mut joined = VertexSet::empty().with(*start);
    let mut to_visit = joined;
    // A walk goes on from each vertex at most once.
    for _ in 0..VERTICES {
        let Some(here) = to_visit.lowest() else {
            break;
        };
        let new = around(size, player, &here).minus(joined);
        joined = joined.union(new);
        to_visit = to_visit.without(here).union(own_of(position, player, new));
    }
    joined
}

/// Whether the player's two sides are joined.
pub fn has_chain(position: &Position, player: Colour) -> bool {
    joined_to(position, player, &Vertex::First).has(Vertex::Last)
}
