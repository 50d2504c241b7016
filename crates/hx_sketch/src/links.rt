//! The zone of a link between the winner's two sides: its carrier is to be free, and it needs the stones without which
//! the steps that make the link are not right.
//!
//! It is enough: with these stones and free cells, and all other cells the opponent's, the steps make the link, and the
//! opponent has no stone on its carrier. So it decides there as it decides here, with the same player to move
//! (judged.rt).

ghost use Rattle.hx_linkset.specs.LiveOf.{Decides};

use crate::judged::{Judged, keep_judged};
use hx_board::{Colour, Mask, Memory};
use hx_linkset::{Derived, LinkSet};
use hx_tree::{Heading, Node, Rule};
use hx_zones::Zones;

/// Keeps the zone of the link at an index, which decides the set's position.
pub(crate) fn draft_link(
    zones: &Zones,
    set: &LinkSet,
    to_move: Colour,
    index: u32,
) -> Result<(), Memory>
    requires { Decides set.now to_move index }
{
    let winner = set.colour();
    let Derived { steps, places: _ } = set.derivation(&[index])?;
    let position = *set.position();
    let heading = Heading {
        position,
        to_move,
        winner,
    };
    let node = Node {
        heading,
        rule: Rule::Links { steps },
    };
    let free = set.carrier(index);
    let judged = Judged {
        node,
        size: position.size(),
        free,
    };
    keep_judged(zones, set, judged, Mask::empty())
}
