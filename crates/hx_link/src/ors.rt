//! Anshelevich's Or rule: where the player, to move, can join two ends in several ways, and no one cell is needed in
//! all of them, a move of the opponent leaves one way, and so the ends are joined whoever moves first.

ghost use Rattle.std.specs.Prelude.{◌≡◌, MatchOption, slice_get};
ghost use Rattle.hx_board.specs.declared.colours.Colour.{Colour};
ghost use Rattle.hx_board.specs.Finds.{Finds};
ghost use Rattle.hx_board.specs.Positions.{Board};
ghost use Rattle.hx_link.specs.Steps.{StepGives, IsAllowed};
ghost use Rattle.hx_link.specs.Named.{IsSemiAt, ArePartsFrom, PartsSoFar};

use crate::links::{Allowed, Kind, Link, has_ends, made};
use crate::parts::MOST_PARTS;
use crate::steps::Step;
use hx_board::{Mask, Vertex};

/// The cells that are in all carriers of the parts, and those that are in some.
#[derive(Clone, Copy)]
struct Shares {
    in_all: Mask,
    in_some: Mask,
}

/// The carrier of an earlier Semi link of these ends.
fn semi_at(before: &[Link], place: u32, a: &Vertex, b: &Vertex) -> Option<Mask>
    ensures { Finds result (IsSemiAt before.now place a.now b.now) }
{
    match before.get(place as usize) {
        None => None,
        Some(link) => {
            let joins = has_ends(link, a, b);
            if link.kind == Kind::Semi && joins {
                Some(link.carrier)
            } else {
                None
            }
        }
    }
}

/// Reads the parts, each of which must be a Semi link of these ends. `start` is the carrier of one of them.
fn read_parts(
    before: &[Link],
    places: &[u32],
    a: &Vertex,
    b: &Vertex,
    start: Mask,
) -> Option<Shares>
    ensures { MatchOption result (ArePartsFrom before.now places.now a.now b.now → ⊥)
        (λ shares.
        PartsSoFar before.now places.now a.now b.now start shares.in_all shares.in_some) }
{
    let mut in_all = start;
    let mut in_some = Mask::empty();
    for place in places {
        let Some(carrier) = semi_at(before, *place, a, b) else {
            return None;
        };
        in_all = in_all.meet(carrier);
        in_some = in_some.union(carrier);
    }
    Some(Shares { in_all, in_some })
}

/// The earlier link at a place.
fn link_at(before: &[Link], place: u32) -> Option<Link>
    ensures { result ≡ slice_get before.now place }
{
    before.get(place as usize).copied()
}

/// The Full link of the ends that the parts share.
pub(crate) fn or_link(allowed: &Allowed, before: &[Link], places: &[u32]) -> Option<Link>
    ensures { (board : Board) (colour : Colour) → IsAllowed allowed.now board colour
        → Finds result (StepGives board colour before.now (Step.Or places.now)) }
{
    let count = places.len();
    if count < 2 || MOST_PARTS < count {
        return None;
    }
    let Some(first) = link_at(before, places[0]) else {
        return None;
    };
    let Some(shares) = read_parts(before, places, &first.a, &first.b, first.carrier) else {
        return None;
    };
    let none_shared = shares.in_all.is_empty();
    if !none_shared {
        return None;
    }
    made(allowed, Kind::Full, &first.a, &first.b, shares.in_some)
}
