//! Replies: which moves have won after a move of the opponent's.
//!
//! A move that won after some move of the opponent's often wins after the same move elsewhere in the search. So for
//! each mover and each last cell of the opponent's it is counted how often a cell was the winning move, and such cells
//! are tried earlier. Only wins that a visit itself came to are counted.
//!
//! On the openings of 6 by 6 this takes a twelfth of the units off. On 7 by 7 it takes off a third after e6, a fifth
//! after g4, and a fifth after a5, a6 and b4 together. Counts by cell alone, not after the opponent's last move,
//! brought nothing, and shares by the root or the logarithm of a count are no better.
//!
//! A count is a hint: it decides in which order moves are tried, and no proof rests on it.

ghost use Rattle.std.specs.Prelude.{◌<◌};

use crate::situations::Situation;
use hx_board::{CELLS, Cell, Colour, Mask, Memory};
use hx_cells::each_cell;
use hx_count::Hints;
use hx_pn::Numbers;
use std::alloc::Global;

/// How much earlier the move is tried that won most often, in thousandths of a distance.
pub(crate) const MOST: u32 = 3000;

/// How many cells the largest board has.
const MOST_CELLS: u32 = CELLS as u32;

/// A word for each last cell and each cell.
const WORDS_OF_MOVER: u32 = MOST_CELLS * MOST_CELLS;

/// A word for each mover, each last cell and each cell.
const WORDS: u32 = 2 * WORDS_OF_MOVER;

/// No word counts further.
const HIGHEST: u32 = 1_000_000;

/// How often each cell was the winning move after each cell of the opponent's. Workers share it without an order: where
/// two count the same move at once, one of the two may be lost.
#[derive(Drop)]
pub struct Replies {
    counts: Hints,
}

/// The word of a mover's move to a cell after the opponent's to the last cell. It stands for the key of a position, and
/// since it is below the words of the table no two share one.
fn word(mover: Colour, last: Cell, cell: Cell) -> u64
    ensures { result < WORDS }
{
    let pair = u32::from(last.index()) * MOST_CELLS + u32::from(cell.index());
    match mover {
        Colour::Black => u64::from(pair),
        Colour::White => u64::from(pair + WORDS_OF_MOVER),
    }
}

impl Replies {
    /// A table by which no move has won.
    pub fn new(alloc: Global) -> Result<Replies, Memory> {
        Ok(Replies {
            counts: Hints::with_words(alloc, WORDS)?,
        })
    }

    /// How often a mover's move to a cell won after the opponent's to the last cell.
    fn count(&self, mover: Colour, last: Cell, cell: Cell) -> u32 {
        let seen = self.counts.get(word(mover, last, cell));
        if seen.is_unseen() {
            0
        } else {
            seen.phi.min(HIGHEST)
        }
    }

    /// The mover of a visit has won by a move to the cell.
    pub fn note(&self, situation: &Situation, cell: Cell) {
        let Some(last) = situation.moved else {
            return;
        };
        let more = self.count(situation.to_move, last, cell).saturating_add(1);
        let numbers = Numbers {
            phi: more,
            delta: 1,
        };
        self.counts
            .set(word(situation.to_move, last, cell), numbers);
    }

    /// How much earlier each of these cells is tried, in thousandths of a distance.
    pub(crate) fn earlier(&self, situation: &Situation, cells: Mask) -> [u32; CELLS] {
        let mut earlier = [0u32; CELLS];
        let Some(last) = situation.moved else {
            return earlier;
        };
        let size = situation.filled.position().size();
        let mut largest = 1;
        for cell in each_cell(cells, size) {
            let count = self.count(situation.to_move, last, cell);
            earlier[cell.index() as usize] = count;
            largest = largest.max(count);
        }
        share_out(&mut earlier, largest);
        earlier
    }
}

/// Each count becomes its share of the most, by the largest count.
fn share_out(counts: &mut [u32; CELLS], largest: u32) {
    for place in 0..CELLS {
        counts[place] = counts[place].wrapping_mul(MOST) / largest.max(1);
    }
}
