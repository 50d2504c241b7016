//! The moves of a session.

use hx_board::{Cell, Colour};

/// A stone of a player on a cell.
#[derive(Clone, Copy, Debug, PartialEq, Eq, Default)]
pub struct Move {
    pub colour: Colour,
    pub cell: Cell,
}
