//! The pass of a play over the links, and its taking back.

ghost use Rattle.std.specs.Prelude.{◌≡◌, ◌+◌, ◌-◌, ◌<◌, ◌≤◌, length, reverse, take, drop};
ghost use Rattle.hx_linkset.specs.Held.{RingsHold, LogHolds, IsPassed, IsLiveThere, AreLiveOrLogged, CanRelink, relinked_all};
ghost use Rattle.hx_linkset.specs.History.{CanCut, cut_times};
ghost use Rattle.hx_linkset.specs.Fulls.{AreFullLists};

use crate::chains::{Chains, FIRST_NODE};
use crate::fulls::FullLists;
use crate::limits::MOST_LINKS;
use crate::liveness::{is_dropped, losses_of};
use crate::log::Log;
use crate::touches::HeldLinks;
use hx_board::{Colour, Position};
use hx_link::{Link, allowed_on};

/// Takes each link out that is live before a play and not after it, and logs it.
pub(crate) fn drop_dead(
    chains: &mut Chains,
    log: &mut Log,
    links: &HeldLinks,
    before: &Position,
    after: &Position,
    player: Colour,
)
    requires hold { RingsHold links.now (IsLiveThere before.now player) chains.old }
    requires log_ok { LogHolds links.now (IsLiveThere before.now player) log.old }
    requires others_live { AreLiveOrLogged before.now player links.now log.old }
    requires few { length links.now ≤ MOST_LINKS }
    ensures { IsPassed links.now before.now after.now player (length links.now)
        chains.old chains.new log.old log.new }
{
    // The proof takes from here that the position's board is one.
    let _size = before.size();
    let allowed_before = allowed_on(before, player);
    let allowed_after = allowed_on(after, player);
    let losses = losses_of(&allowed_before, &allowed_after);
    let mut touched = links.touched(losses.taken);
    let mut from = 0;
    while let Some(place) = touched.first_from(log, from) {
        from = place + 1;
        let drops = is_dropped(&losses, &links.as_slice()[place]);
        if !drops {
            continue;
        }
        chains.unlink(FIRST_NODE + place as u16);
        log.push(place as u16);
    }
}

/// Takes the nodes of the last links away, until so many are left.
pub(crate) fn cut_down(chains: &mut Chains, held: u16, kept: u16)
    requires few { held ≤ MOST_LINKS }
    requires order { kept ≤ held }
    requires long { length chains.old.next ≡ FIRST_NODE + held }
    requires can { CanCut (held - kept) chains.old }
    ensures chains { chains.new ≡ cut_times (held - kept) chains.old }
    ensures long { length chains.new.next ≡ FIRST_NODE + kept }
{
    let mut left = held;
    while kept < left {
        left -= 1;
        chains.cut(FIRST_NODE + left);
    }
}

/// Puts the links back that the log has above a length, the last first.
pub(crate) fn put_back(chains: &mut Chains, log: &mut Log, kept: usize)
    requires base { kept ≤ length log.old }
    requires few { length chains.old.next < 65536 }
    requires can { CanRelink chains.old (reverse (drop kept log.old)) }
    ensures chains { chains.new ≡ relinked_all chains.old (reverse (drop kept log.old)) }
    ensures log { log.new ≡ take kept log.old }
{
    while kept < log.len() {
        let place = log.pop();
        chains.relink(FIRST_NODE + place);
    }
}

/// Cuts the last links off the lists of Full links, until so many are left.
pub(crate) fn cut_fulls(fulls: &mut FullLists, links: &[Link], kept: usize)
    requires fits { kept ≤ length links.now }
    requires lists { AreFullLists links.now fulls.old }
    ensures { AreFullLists (take kept links.now) fulls.new }
{
    let mut left = links.len();
    while kept < left {
        left -= 1;
        fulls.cut(&links[left]);
    }
}
