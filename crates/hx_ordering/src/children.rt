//! One move of a visit, and what it is chosen by.

ghost use Rattle.hx_pn.specs.Numbers.{IsNumbers};

use hx_board::Cell;
use hx_pn::Numbers;

/// A move that is not known to lose.
#[derive(Clone, Copy)]
pub struct Child {
    /// The cell that the mover puts a stone on.
    pub cell: Cell,

    /// The key of the position after the move, which the turned position shares.
    pub key: u64,

    /// The numbers of the position after the move, seen from the player to move there: the first ones of a move that
    /// nobody looked at, those of its hint, or those that the last visit after it came to.
    pub numbers: Numbers,
    ghost within: { IsNumbers numbers },
}
