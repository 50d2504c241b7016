//! Cells and positions that look drawn by chance and are the same in each run, by the generator PCG32 of Melissa
//! O'Neill.

ghost use Rattle.std.specs.Prelude.{◌≡◌, ◌<◌, true, IfSome};
ghost use Rattle.hx_board.specs.Sets.{has};

use hx_board::{Cell, Colour, Mask, Position, Size};
use rand_core::utils::NextWord;
use rand_pcg::Pcg32;

/// Draws, each of which depends on the seed and on the draws before it.
#[derive(Drop)]
pub struct Draws {
    words: Pcg32,
}

impl Draws {
    /// The draws of a seed.
    pub fn new(seed: u64) -> Draws {
        Draws {
            words: Pcg32::new(seed, 54),
        }
    }

    /// A number below a bound.
    pub fn below(&mut self, bound: u32) -> u32
        requires { 0 < bound }
        ensures { result < bound }
    {
        self.words.next_word() % bound
    }

    /// A player.
    pub fn colour(&mut self) -> Colour {
        if self.below(2) == 0 {
            Colour::Black
        } else {
            Colour::White
        }
    }

    /// One of some cells of a board. None where none of them is on it.
    pub fn cell(&mut self, size: Size, cells: Mask) -> Option<Cell>
        ensures { IfSome result (λ cell. has cells cell ≡ true) }
    {
        let mut left = cells.meet(size.all());
        let count = left.count();
        if count == 0 {
            return None;
        }
        let skipped = self.below(count);
        for _ in 0..skipped {
            if let Some(cell) = left.least(size) {
                left = left.without(cell);
            }
        }
        let drawn = left.least(size)?;
        if cells.has(drawn) { Some(drawn) } else { None }
    }

    /// The position after stones of either colour on drawn empty cells, of which so many are left empty, or all where
    /// there are fewer.
    pub fn filled(&mut self, position: &Position, empty: u32) -> Position {
        let mut next = *position;
        for _ in empty..position.empty_count() {
            if let Some(cell) = self.cell(next.size(), next.empties()) {
                let colour = self.colour();
                next.play(colour, cell);
            }
        }
        next
    }

    /// A position with so many empty cells, or with none other where the board has fewer.
    pub fn position(&mut self, size: Size, empty: u32) -> Position {
        self.filled(&Position::empty(size), empty)
    }
}
