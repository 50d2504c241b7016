//! Which moves are in focus.
//!
//! Of the moves that are left the first ones alone are looked at, a quarter of them and one more: with all in focus a
//! search of 7 by 7 takes twice the units.

ghost use Rattle.std.specs.Prelude.{◌≡◌, ◌<◌, ◌≤◌, length, take};
ghost use Rattle.hx_ordering.specs.Given.{focused_of};

use crate::children::Child;
use crate::moves::Moves;
use hx_pn::focus;

/// No more moves are in focus: a quarter of 121, rounded up, and one more.
pub(crate) const MOST_IN_FOCUS: usize = 32;

/// The moves in focus: the first ones of those that are left.
pub fn in_focus(moves: &Moves) -> &[Child]
    ensures focused { result.now ≡ focused_of moves.now.children.items }
    ensures front { result.now ≡ take (length result.now) moves.now.children.items }
    ensures some { 0 < length moves.now.children.items → 0 < length result.now }
    ensures few { length result.now ≤ MOST_IN_FOCUS }
{
    let children = moves.children.as_slice();
    let live = u32::try_from(children.len()).unwrap_or(u32::MAX);
    let count = (focus(live) as usize).min(MOST_IN_FOCUS);
    children.get(..count).unwrap_or(&[])
}
