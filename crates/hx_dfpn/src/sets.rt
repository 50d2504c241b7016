//! The sets of links on which visits play and take back.
//!
//! To play on a set and take back is faster than a new set for each position by two to three, and stronger too, since
//! links that were found higher up stay. But the links of many visits fill a set. So a set with many links is not
//! played on; the visit gets a new one.

ghost use Rattle.std.specs.Prelude.{◌≡◌, IfOk, OnErr};
ghost use Rattle.hx_dfpn.specs.Sets.{HasPlay, IsPut, IsBack};

use hx_board::{Colour, Memory};
use hx_linkset::LinkSet;
use hx_ordering::Situation;
use std::mem::replace;

/// A set with more links is not played on.
const MANY_LINKS: u32 = 6000;

/// How a set was before a visit put its stones.
#[derive(Drop)]
pub enum Before {
    /// As it is, but for the last play.
    Played,

    /// As it is: there were no stones to put.
    Same,

    /// The set that was there before the new one.
    Other(LinkSet),
}

/// Puts the stones of a visit on a player's set, as one play, where there are any; or puts a new set in its place.
pub fn put(set: &mut LinkSet, situation: &Situation, player: Colour) -> Result<Before, Memory>
    ensures put { IfOk result (λ before. IsPut before set.old set.new) }
    ensures memory { OnErr result (set.new ≡ set.old) }
{
    let stones = situation.stones.as_slice();
    if set.count() <= MANY_LINKS {
        if set.can_play(stones) {
            set.play_all(stones);
            return Ok(Before::Played);
        }
        if stones.is_empty() {
            return Ok(Before::Same);
        }
    }
    let new = LinkSet::new(set.allocator(), situation.filled.position(), player)?;
    Ok(Before::Other(replace(set, new)))
}

/// Takes back what a visit put.
pub fn take_back(set: &mut LinkSet, before: Before)
    requires { HasPlay before set.old }
    ensures { IsBack before set.old set.new }
{
    match before {
        Before::Played => set.undo(),
        Before::Same => {}
        Before::Other(other) => *set = other,
    }
}
