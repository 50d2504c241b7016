//! The vertices of a player's graph: what a player's stones join.
//!
//! A vertex goes by one number, its code: a cell by its index, and the two sides come after the cells. So one set of
//! 128 numbers holds a whole graph, and a flood treats its sides as it treats its stones.

ghost use Rattle.std.specs.Prelude.{◌≡◌, ◌<◌};
ghost use Rattle.hx_board.specs.VertexSets.{code_of, IsSomeVertex};

use crate::cells::{CELLS, Cell};

/// How many vertices the graph of the largest board has: its cells and the two sides.
pub const VERTICES: usize = CELLS + 2;

/// The code of the first side.
pub(crate) const FIRST_CODE: u8 = CELLS as u8;

/// The code of the last side.
pub(crate) const LAST_CODE: u8 = FIRST_CODE + 1;

/// A vertex of a player's graph: a cell, or one of the player's sides, of which the top is Black's first and the left
/// White's.
#[derive(Clone, Copy, PartialEq, Eq, Debug)]
pub enum Vertex {
    Of(Cell),
    First,
    Last,
}

impl Vertex {
    /// The code of a vertex, from 0 to 122: the index of a cell, then 121 for the first side and 122 for the last.
    pub fn code(self) -> u8
        ensures value { result ≡ code_of self }
        ensures small { result < VERTICES }
        ensures some { IsSomeVertex self }
    {
        match self {
            Vertex::Of(cell) => cell.index(),
            Vertex::First => FIRST_CODE,
            Vertex::Last => LAST_CODE,
        }
    }

    /// The vertex with this code.
    pub(crate) fn at_code(code: u8) -> Vertex
        requires { code < VERTICES }
        ensures value { code_of result ≡ code }
        ensures some { IsSomeVertex result }
    {
        match code {
            FIRST_CODE => Vertex::First,
            LAST_CODE => Vertex::Last,
            index => Vertex::Of(Cell::at_index(index)),
        }
    }
}
