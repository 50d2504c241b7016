//! What a survey tells.

ghost use Rattle.std.specs.Prelude.{◌≡◌};
ghost use Rattle.hx_board.specs.Sets.{count_below};
ghost use Rattle.hx_survey.specs.Surveys.{winner_at};

use hx_board::{Cell, Colour, Mask, Size};
use std::marker::Model;

/// Who wins after each opening of a board: Black after those on some of its cells, White after the others.
#[derive(Clone, Copy, PartialEq, Eq, Debug)]
pub struct Table {
    size: Size,
    cells_of_black: Mask,
}

impl Model for Table {
    ghost use Rattle.hx_survey.specs.Surveys.{Winners};

    ghost Value = { Winners };

    ghost view = { λ t. record { size = t.size; cells_of_black = t.cells_of_black } };

    ghost inverse = { λ w. record { size = w.size; cells_of_black = w.cells_of_black } };
}

impl Table {
    /// The table of a board on which Black wins after the openings on these cells.
    pub(crate) fn new(size: Size, cells_of_black: Mask) -> Table
        ensures { result ≡ record { size = size; cells_of_black = cells_of_black } }
    {
        Table {
            size,
            cells_of_black,
        }
    }

    /// The size of the board.
    pub fn size(&self) -> Size
        ensures { result ≡ self.now.size }
    {
        self.size
    }

    /// Who wins after the opening on this cell.
    pub fn winner(&self, cell: Cell) -> Colour
        ensures { result ≡ winner_at self.now.cells_of_black cell }
    {
        if self.cells_of_black.has(cell) {
            Colour::Black
        } else {
            Colour::White
        }
    }

    /// After how many openings Black wins.
    pub fn black(&self) -> u32
        ensures { result ≡ count_below 128 self.now.cells_of_black }
    {
        self.cells_of_black.count()
    }
}
