//! Anshelevich's And rule: two links that meet at one end and share no cell lead from the one's other end to the
//! other's. Over a stone or a side of the player that gives a Full link. Over an empty cell the player first has to
//! move there, and so that gives a Semi link.

ghost use Rattle.hx_board.specs.declared.colours.Colour.{Colour};
ghost use Rattle.hx_board.specs.Finds.{Finds};
ghost use Rattle.hx_board.specs.Positions.{Board};
ghost use Rattle.hx_link.specs.Steps.{StepGives, IsAllowed};
ghost use Rattle.hx_link.specs.Named.{IsMiddle};

use crate::links::{Allowed, Kind, Link, made};
use crate::meetings::{Met, met_of};
use crate::steps::Step;
use hx_board::{Cell, Colour, Position, Vertex};

/// The Full link over a stone or a side of the player.
pub(crate) fn and_stone(
    position: &Position,
    colour: Colour,
    allowed: &Allowed,
    before: &[Link],
    left: u32,
    right: u32,
) -> Option<Link>
    requires { IsAllowed allowed.now position.now colour }
    ensures { Finds result (StepGives position.now colour before.now (Step.AndStone left right)) }
{
    let Some(met) = met_of(before, left, right) else {
        return None;
    };
    let carrier = met.first.carrier.union(met.second.carrier);
    let own = position.owns(colour, &met.at.middle);
    if !own {
        return None;
    }
    made(allowed, Kind::Full, &met.at.from, &met.at.to, carrier)
}

/// The empty cell that two links share as an end, where it is in neither carrier.
#[inline(always)]
fn middle_cell(allowed: &Allowed, met: &Met) -> Option<Cell>
    ensures { (board : Board) (colour : Colour) → IsAllowed allowed.now board colour
        → Finds result (IsMiddle board met.now) }
{
    let empties = allowed.empties;
    match met.at.middle {
        Vertex::Of(cell) => {
            if empties.has(cell) && !met.first.carrier.has(cell) && !met.second.carrier.has(cell) {
                Some(cell)
            } else {
                None
            }
        }
        Vertex::First | Vertex::Last => None,
    }
}

/// The Semi link over an empty cell.
pub(crate) fn and_cell(allowed: &Allowed, before: &[Link], left: u32, right: u32) -> Option<Link>
    ensures { (board : Board) (colour : Colour) → IsAllowed allowed.now board colour
        → Finds result (StepGives board colour before.now (Step.AndCell left right)) }
{
    let Some(met) = met_of(before, left, right) else {
        return None;
    };
    let Some(cell) = middle_cell(allowed, &met) else {
        return None;
    };
    let carrier = met.first.carrier.union(met.second.carrier).with(cell);
    made(allowed, Kind::Semi, &met.at.from, &met.at.to, carrier)
}
