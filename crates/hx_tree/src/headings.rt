//! What the heading of an earlier node shows, which is all that a rule takes from its children.

ghost use Rattle.std.specs.Prelude.{◌↔◌, IsTrue, IsSomeAnd, slice_get};
ghost use Rattle.hx_board.specs.Colours.{other_of};
ghost use Rattle.hx_board.specs.Positions.{IsEmpty, put};
ghost use Rattle.hx_tree.specs.Headings.{Leads, IsHeading};

use crate::nodes::Heading;
use hx_board::{Cell, Colour, Position};

/// Whether an earlier heading says that the winner wins after this stone on an empty cell.
pub(crate) fn leads(
    before: &[Heading],
    heading: &Heading,
    stone: Colour,
    cell: Cell,
    child: u32,
) -> bool
    requires { IsEmpty heading.now.position cell }
    ensures { IsTrue result
        ↔ Leads before.now child
        (put heading.now.position stone cell) (other_of stone) heading.now.winner }
{
    let expected = heading.position.with(stone, cell);
    says(before, child, &expected, stone.other(), heading.winner)
}

/// Whether an earlier heading at this place says that the winner wins this position with this mover.
pub(crate) fn says(
    before: &[Heading],
    child: u32,
    position: &Position,
    mover: Colour,
    winner: Colour,
) -> bool
    ensures { IsTrue result ↔ Leads before.now child position.now mover winner }
{
    is_at(before, child, position, mover, winner)
}

/// Whether the heading at this place has this position, mover and winner.
fn is_at(before: &[Heading], child: u32, position: &Position, mover: Colour, winner: Colour) -> bool
    ensures { IsTrue result
        ↔ IsSomeAnd (slice_get before.now child) (IsHeading position.now mover winner) }
{
    match before.get(child as usize) {
        None => false,
        Some(next) => is_heading(next, position, mover, winner),
    }
}

/// Whether a heading has this position, mover and winner.
fn is_heading(heading: &Heading, position: &Position, mover: Colour, winner: Colour) -> bool
    ensures { IsTrue result ↔ IsHeading position.now mover winner heading.now }
{
    heading.position == *position && heading.to_move == mover && heading.winner == winner
}
