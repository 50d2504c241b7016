//! Losses: while a worker is below a move, each worker sees the move as harder by one, so that they go down to
//! different ones.
//!
//! Without them four workers take two to three times the units of one worker on 7 by 7, and no less time; with them a
//! third more, and 0.43 of the time.

ghost use Rattle.std.specs.Prelude.{◌≡◌, ℕ, ◌<◌};
ghost use Rattle.hx_pn.specs.Numbers.{IsNumbers, worse_of};
ghost use Rattle.hx_count.specs.Seats.{KeepsSeat};

use hx_count::{CountSeat, Counts};
use hx_pn::{Numbers, worse};

/// How many loss words there are.
pub const LOSS_WORDS: u32 = 4096;

/// The loss word of a position and mover that have this key. It is made of other digits than the word of the hint.
pub fn loss_word(key: u64) -> u32
    ensures { result < LOSS_WORDS }
{
    (key >> 32) as u32 % LOSS_WORDS
}

/// The numbers of a position as they look with the workers that are below it.
pub(crate) fn with_losses(
    counts: &Counts,
    seat: &mut CountSeat,
    key: u64,
    numbers: Numbers,
) -> Numbers
    requires seat { seat.old.made ≡ counts.now }
    requires words { counts.now.limits.words ≡ LOSS_WORDS }
    requires numbers { IsNumbers numbers }
    ensures seat { KeepsSeat seat.old seat.new }
    ensures value { (workers : ℕ) × (result ≡ worse_of numbers workers) }
    ensures numbers { IsNumbers result }
{
    let holders = counts.losses(seat, loss_word(key));
    worse(numbers, holders)
}
