//! What a visit leaves for whoever comes to its position again: the numbers of an open end, or the mark of a proof
//! (`marks.rt` of hx_ordering). How a visit ends is known here alone, so this stands here.

use crate::outcomes::Outcome;
use hx_board::Colour;
use hx_count::Hints;
use hx_ordering::{leave_mark, leave_open};
use hx_turn::Orientations;

/// Leaves what a visit at a position came to.
pub(crate) fn leave(hints: &Hints, here: &Orientations, to_move: Colour, outcome: Outcome) {
    match outcome {
        Outcome::Proved => leave_mark(hints, here.key(to_move)),
        Outcome::Open(numbers) => leave_open(hints, here.key(to_move), numbers),
    }
}

/// Leaves a mark at a position, where a visit came to a proof of it.
pub(crate) fn leave_proved(hints: &Hints, here: &Orientations, to_move: Colour, outcome: Outcome) {
    if let Outcome::Proved = outcome {
        leave_mark(hints, here.key(to_move));
    }
}
