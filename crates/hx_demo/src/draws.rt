//! Positions drawn one after the other.
//!
//! Each takes sixteen words of PCG32, the generator of Melissa O'Neill. A word stands for a place in the list of the
//! cells that are left, so no cell is drawn twice and no word is thrown away.

ghost use Rattle.std.specs.Prelude.{◌≡◌, ◌<◌, ◌≤◌, slice_index, remove};
ghost use Rattle.arrayvec.specs.ArrayVec.{array_vec_len};
ghost use Rattle.rand_pcg.specs.Pcg.{pcg32};
ghost use Rattle.hx_board.specs.Sets.{count_below};
ghost use Rattle.hx_board.specs.Counts.{empty_count};
ghost use Rattle.hx_demo.specs.Generators.{generator_of, next_words, words_later};
ghost use Rattle.hx_demo.specs.DrawnPositions.{board_size, cells_in_order, place_of, drawn_from, set_of, Drawn};
ghost use Rattle.hx_demo.specs.CellsLeft.{left_after};

use arrayvec::ArrayVec;
use hx_board::{Cell, Mask, Position, Size};
use rand_core::utils::NextWord;
use rand_pcg::Lcg64Xsh32;
use std::marker::Model;

/// The stream of the generator: the one in its published example.
const STREAM: u64 = 54;

/// How many rows a drawn board has, and how many columns.
const SIDE: u8 = 5;

/// How many cells a drawn board has.
const BOARD_CELLS: usize = 25;

/// How many stones of each colour it gets.
const STONES: usize = 8;

/// The draws of a seed. Contracts see them as the generator that gives the words, as it stands between two draws.
#[derive(Drop)]
pub struct Draw {
    words: Lcg64Xsh32,
}

impl Model for Draw {
    ghost use Rattle.rand_pcg.specs.Lcg.{Lcg};

    ghost Value = { Lcg };

    ghost view = { λ d. d.words };
}

impl Draw {
    /// The draws of a seed, from the first one on.
    pub fn new(seed: u64) -> Draw
        ensures { result ≡ generator_of seed }
    {
        Draw {
            words: Lcg64Xsh32::new(seed, STREAM),
        }
    }

    /// The position that the next sixteen words draw: five rows and five columns, eight stones of each colour and nine
    /// empty cells.
    pub fn next(&mut self) -> Position
        ensures drawn { Drawn (next_words 16 self.old) result }
        ensures black { count_below 128 result.black ≡ 8 }
        ensures white { count_below 128 result.white ≡ 8 }
        ensures empty { empty_count result ≡ 9 }
        ensures further { self.new ≡ words_later 16 self.old }
    {
        let mut left = cells_in_order();
        let black = self.stones(&mut left);
        let white = self.stones(&mut left);
        Position::from_masks(board_size(), black, white).unwrap()
    }

    /// The cells of eight stones, which move out of the list.
    fn stones(&mut self, left: &mut ArrayVec<Cell, BOARD_CELLS>) -> Mask
        requires { STONES ≤ array_vec_len left.old }
        ensures cells { result ≡ set_of (drawn_from left.old.items (next_words STONES self.old)) }
        ensures rest { left.new.items ≡ left_after left.old.items (next_words STONES self.old) }
        ensures further { self.new ≡ words_later STONES self.old }
    {
        let mut cells = Mask::empty();
        for _stone in 0..STONES {
            cells = cells.with(self.cell(left));
        }
        cells
    }

    /// The cell at the next word's place, which moves out of the list.
    fn cell(&mut self, left: &mut ArrayVec<Cell, BOARD_CELLS>) -> Cell
        requires { 0 < array_vec_len left.old }
        ensures cell { result
            ≡ slice_index left.old.items (place_of (pcg32 self.old).0 left.old.items) }
        ensures rest { left.new.items
            ≡ remove left.old.items (place_of (pcg32 self.old).0 left.old.items) }
        ensures further { self.new ≡ (pcg32 self.old).1 }
    {
        let place = self.words.next_word() as usize % left.len();
        left.remove(place)
    }
}

/// The size of a drawn board.
fn board_size() -> Size
    ensures { result ≡ board_size }
{
    Size::new(SIDE, SIDE).unwrap()
}

/// The cells of a drawn board in cell order.
fn cells_in_order() -> ArrayVec<Cell, BOARD_CELLS>
    ensures { result.items ≡ cells_in_order }
{
    let size = board_size();
    let mut cells = ArrayVec::new();
    for place in 0..BOARD_CELLS as u8 {
        cells.push(size.cell(place / SIDE, place % SIDE).unwrap());
    }
    cells
}
