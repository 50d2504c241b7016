//! What a player's walk can come to from a cell: its neighbours in the player's graph that are no stones of the
//! opponent.
//!
//! A cell matters to the player only where it joins two of these that are not joined without it.

ghost use Rattle.std.specs.Prelude.{◌≡◌, ℕ, ◌↔◌, ◌&&◌, ◌||◌, ◌==◌, IsTrue};
ghost use Rattle.hx_board.specs.Sets.{has};
ghost use Rattle.hx_board.specs.Cells.{OnBoard};
ghost use Rattle.hx_board.specs.Graph.{IsFirstLine, IsLastLine};
ghost use Rattle.hx_board.specs.VertexSets.{code_of, IsSetOf};
ghost use Rattle.hx_inferior.specs.Inferior.{IsOpenNeighbour};

use hx_board::{Cell, Colour, Position, Size, Vertex, VertexSet, neighbour_set};

/// The open neighbours of a cell: of the cells and the player's sides that it touches those that are no stones of the
/// opponent.
pub fn open_around(position: &Position, player: Colour, cell: Cell) -> VertexSet
    requires { OnBoard position.now.size cell }
    ensures { IsSetOf position.now.size (IsOpenNeighbour position.now player cell) result }
{
    let size = position.size();
    let touched = neighbour_set(size, cell);
    let unheld = touched.minus(position.stones(player.other()));
    let cells = VertexSet::of_cells(unheld);
    let with_first = with_if(cells, Vertex::First, is_along_first(player, cell));
    with_if(with_first, Vertex::Last, is_along_last(size, player, cell))
}

/// The set, with a vertex where it is wanted.
fn with_if(set: VertexSet, vertex: Vertex, is_wanted: bool) -> VertexSet
    ensures { (n : ℕ) → has result n ≡ ((is_wanted && (n == code_of vertex)) || has set n) }
{
    if is_wanted { set.with(vertex) } else { set }
}

/// Whether a cell lies along the player's first side.
fn is_along_first(player: Colour, cell: Cell) -> bool
    ensures { IsTrue result ↔ IsFirstLine player cell }
{
    match player {
        Colour::Black => cell.row() == 0,
        Colour::White => cell.col() == 0,
    }
}

/// Whether a cell lies along the player's last side.
fn is_along_last(size: Size, player: Colour, cell: Cell) -> bool
    ensures { IsTrue result ↔ IsLastLine size player cell }
{
    match player {
        Colour::Black => cell.row() + 1 == size.rows(),
        Colour::White => cell.col() + 1 == size.cols(),
    }
}
