//! The checker of a node that stands on an earlier one at the turned position.

ghost use Rattle.std.specs.Prelude.{◌↔◌, IsTrue};
ghost use Rattle.hx_tree.specs.Turns.{IsTurnedHeading, IsRightTurn};

use crate::nodes::Heading;
use hx_turn::is_turned;

/// Whether an earlier heading has the position turned by 180 degrees, with the same player to move and the same winner.
pub(crate) fn check_turned(before: &[Heading], heading: &Heading, child: u32) -> bool
    ensures { IsTrue result ↔ IsRightTurn before.now heading.now child }
{
    match before.get(child as usize) {
        None => false,
        Some(other) => is_turned_heading(heading, other),
    }
}

/// Whether the other heading says of the turned position what this one says of its own.
fn is_turned_heading(heading: &Heading, other: &Heading) -> bool
    ensures { IsTrue result ↔ IsTurnedHeading heading.now other.now }
{
    other.to_move == heading.to_move
        && other.winner == heading.winner
        && is_turned(&heading.position, &other.position)
}
