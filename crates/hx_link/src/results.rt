//! The link that a step gives.

ghost use Rattle.std.specs.Prelude.{◌≡◌, List};
ghost use Rattle.hx_board.specs.Finds.{Finds};
ghost use Rattle.hx_link.specs.declared.links.Link.{Link};
ghost use Rattle.hx_link.specs.Steps.{StepGives, IsAllowed};

use crate::ands::{and_cell, and_stone};
use crate::links::{Allowed, Kind, Link, allowed_on, made};
use crate::ors::or_link;
use crate::steps::Step;
use hx_board::{Colour, Groups, Mask, Position, Vertex};

/// The link that a step of the player gives after the links before it. None where it gives none: where it names a place
/// at which no link stands before it, where the links it names are not as its rule needs them, where an end of the
/// result is a stone of the opponent or lies off the board, or where the result's carrier has an empty end of it.
/// `groups` must be those of the position and the player. It takes no memory.
///
/// - `Base`, of two ends that are joined: `Full`, on no cell.
/// - `AndStone`, of two `Full` links that share exactly one end, which is a stone or a side of the player, and no cell
///   of their carriers: `Full` between their other ends, on both carriers.
/// - `AndCell`, of two `Full` links that share exactly one end, which is an empty cell in neither carrier, and no cell
///   of their carriers: `Semi` between their other ends, on both carriers and that cell.
/// - `Or`, of 2 to 128 `Semi` links of the same ends, such that no cell is in all their carriers: `Full` of these ends,
///   on all their carriers.
pub fn result_of(
    position: &Position,
    colour: Colour,
    groups: &Groups,
    before: &[Link],
    step: &Step,
) -> Option<Link>
    requires { groups.now ≡ record { board = position.now; player = colour } }
    ensures { Finds result (StepGives position.now colour before.now step.now) }
{
    let allowed = allowed_on(position, colour);
    result_among(position, colour, groups, &allowed, before, step)
}

/// As `result_of`, for callers who know what is allowed on the position and ask for the links of many steps.
pub fn result_among(
    position: &Position,
    colour: Colour,
    groups: &Groups,
    allowed: &Allowed,
    before: &[Link],
    step: &Step,
) -> Option<Link>
    requires groups { groups.now ≡ record { board = position.now; player = colour } }
    requires allowed { IsAllowed allowed.now position.now colour }
    ensures { Finds result (StepGives position.now colour before.now step.now) }
{
    match step {
        Step::Base { a, b } => base_link(groups, allowed, a, b),
        Step::AndStone { left, right } => {
            and_stone(position, colour, allowed, before, *left, *right)
        }
        Step::AndCell { left, right } => and_cell(allowed, before, *left, *right),
        Step::Or { parts } => or_link(allowed, before, parts.items()),
    }
}

/// The Full link of two vertices that are joined.
fn base_link(groups: &Groups, allowed: &Allowed, a: &Vertex, b: &Vertex) -> Option<Link>
    requires { IsAllowed allowed.now groups.now.board groups.now.player }
    ensures { (before : List Link)
        → Finds result
        (StepGives groups.now.board groups.now.player before (Step.Base a.now b.now)) }
{
    let Some(link) = made(allowed, Kind::Full, a, b, Mask::empty()) else {
        return None;
    };
    let joined = groups.joined(*a, *b);
    if joined { Some(link) } else { None }
}
