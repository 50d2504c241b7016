//! Hints, and the marks of positions that are proved.
//!
//! Each position and mover has a word of hints, which the turned position shares. A visit that ends open leaves its
//! numbers there. A visit that ends with a proof leaves a mark, and whoever comes to the position again looks among the
//! proofs at once, with no unit: on 7 by 7 that takes off three units of ten. To look for an entry of the position
//! after each move, marked or not, brings no more and takes four to six times the looks.
//!
//! A hint may be of another position, though seldom. So a mark is no proof, and one that proves to be wrong is written
//! anew.

ghost use Rattle.std.specs.Prelude.{◌≡◌, ◌⊎◌};
ghost use Rattle.hx_pn.specs.Numbers.{IsNumbers};
ghost use Rattle.hx_ordering.specs.Given.{IsHint};
ghost use Rattle.hx_ordering.specs.Marks.{open_of};

use hx_count::{HIGHEST_KEPT, Hints};
use hx_pn::Numbers;

/// The mark of a position that is proved.
const PROVED: Numbers = Numbers {
    phi: HIGHEST_KEPT,
    delta: 1,
};

/// The nearest numbers of a position that is not proved: at least 1, and below the highest that a hint has. No mark has
/// them.
pub fn open(numbers: Numbers) -> Numbers
    ensures value { result ≡ open_of numbers }
    ensures numbers { IsNumbers result }
{
    Numbers {
        phi: numbers.phi.clamp(1, HIGHEST_KEPT - 1),
        delta: numbers.delta.clamp(1, HIGHEST_KEPT - 1),
    }
}

/// Whether the hint of the position and mover that have this key says that they are proved.
pub fn is_marked(hints: &Hints, key: u64) -> bool {
    hints.get(key) == PROVED
}

/// The numbers that the hint of a position and mover tells, or these, where it tells none.
pub(crate) fn hinted_or(hints: &Hints, key: u64, others: Numbers) -> Numbers
    requires { IsNumbers others }
    ensures told { (result ≡ others) ⊎ IsHint result }
    ensures numbers { IsNumbers result }
{
    let hint = hints.get(key);
    if hint.is_unseen() || hint == PROVED {
        others
    } else {
        hint
    }
}

/// Leaves the mark of a position and mover that have this key.
pub fn leave_mark(hints: &Hints, key: u64) {
    hints.set(key, PROVED);
}

/// Leaves the numbers of a position and mover that are not proved.
pub fn leave_open(hints: &Hints, key: u64, numbers: Numbers) {
    hints.set(key, open(numbers));
}
