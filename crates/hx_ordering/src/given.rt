//! The numbers that a visit's moves give: those of the moves in focus, and behind them what the others count.

ghost use Rattle.std.specs.Prelude.{◌≡◌, ◌<◌, ◌≤◌, length, take, IfSome};
ghost use Rattle.std.specs.List.{All};
ghost use Rattle.hx_pn.specs.Numbers.{IsNumbers};
ghost use Rattle.hx_ordering.specs.Given.{AreTold, and_rest};
ghost use Rattle.hx_count.specs.Seats.{KeepsSeat};

use crate::children::Child;
use crate::focus::MOST_IN_FOCUS;
use crate::losses::{LOSS_WORDS, with_losses};
use crate::marks::hinted_or;
use hx_count::{CountSeat, Counts, Hints};
use hx_pn::{Numbers, UNSEEN};

/// Room for the numbers of the moves in focus, and of the rest.
pub(crate) const MOST_GIVEN: usize = MOST_IN_FOCUS + 1;

/// The numbers that some moves tell: their own ones or those of their hints, with losses. Behind them is room for one
/// more.
pub(crate) fn told_by(
    counts: &Counts,
    hints: &Hints,
    seat: &mut CountSeat,
    children: &[Child],
) -> [Numbers; MOST_GIVEN]
    requires seat { seat.old.made ≡ counts.now }
    requires words { counts.now.limits.words ≡ LOSS_WORDS }
    requires few { length children.now ≤ MOST_IN_FOCUS }
    ensures seat { KeepsSeat seat.old seat.new }
    ensures told { AreTold children.now (take (length children.now) result) }
    ensures numbers { All IsNumbers result }
{
    let mut numbers = [UNSEEN; MOST_GIVEN];
    for place in 0..children.len() {
        let child = &children[place];
        let hinted = hinted_or(hints, child.key, child.numbers);
        numbers[place] = with_losses(counts, seat, child.key, hinted);
    }
    numbers
}

/// Adds what the other moves count behind the first so many numbers. Answers how many there are then.
pub(crate) fn add_rest(
    numbers: &mut [Numbers; MOST_GIVEN],
    count: usize,
    rest: Option<Numbers>,
) -> usize
    requires room { count ≤ MOST_IN_FOCUS }
    requires rest { IfSome rest IsNumbers }
    requires numbers { All IsNumbers numbers.old }
    ensures added { take result numbers.new ≡ and_rest (take count numbers.old) rest }
    ensures numbers { All IsNumbers numbers.new }
    ensures room { result ≤ MOST_GIVEN }
{
    let Some(one) = rest else {
        return count;
    };
    numbers[count] = one;
    count + 1
}
