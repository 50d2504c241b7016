//! The checker of a node that fills cells.

ghost use Rattle.std.specs.Prelude.{◌↔◌, IsTrue, SomeIff};
ghost use Rattle.hx_tree.specs.Fills.{MayFillAll, filled_all, IsRightFill};

use crate::headings::says;
use crate::nodes::Heading;
use hx_board::{Colour, Position};
use hx_inferior::{FillStep, fill_one};

/// Whether there is some step, each may be done where it stands, and an earlier heading has the position after them
/// all, with the same player to move and the same winner.
pub(crate) fn check_fill(
    before: &[Heading],
    heading: &Heading,
    steps: &[FillStep],
    child: u32,
) -> bool
    ensures { IsTrue result ↔ IsRightFill before.now heading.now steps.now child }
{
    if steps.is_empty() {
        return false;
    }
    match fill_all(&heading.position, heading.winner, steps) {
        Some(position) => says(before, child, &position, heading.to_move, heading.winner),
        None => false,
    }
}

/// The position after the steps. None where one of them may not be done where it stands.
fn fill_all(position: &Position, winner: Colour, steps: &[FillStep]) -> Option<Position>
    ensures { SomeIff result (MayFillAll position.now winner steps.now)
        (filled_all position.now winner steps.now) }
{
    let mut filled = *position;
    for step in steps {
        match fill_one(&filled, winner, *step) {
            Some(next) => filled = next,
            None => return None,
        }
    }
    Some(filled)
}
