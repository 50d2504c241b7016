//! The first numbers of a move that nobody looked at.
//!
//! The more empty cells, the more the player to move after it has to prove; so phi grows with them. Delta, what the
//! other one has to prove, is the least. On the openings of 6 by 6 this takes a quarter of the units off that equal
//! numbers take, and on the empty 7 by 7 two fifths. To let delta be more than 1 was worse in each way that was tried.

ghost use Rattle.hx_pn.specs.Numbers.{IsNumbers};

use hx_board::Position;
use hx_pn::Numbers;

/// So many empty cells make phi higher by one.
const CELLS_OF_ONE: u32 = 16;

/// The numbers of a move at this position that nobody looked at.
pub fn first_numbers(position: &Position) -> Numbers
    ensures { IsNumbers result }
{
    Numbers {
        phi: position.empty_count() / CELLS_OF_ONE + 1,
        delta: 1,
    }
}
