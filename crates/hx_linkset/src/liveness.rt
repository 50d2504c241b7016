//! Which links are live.
//!
//! A link is live exactly where its carrier is empty on the board and neither end is a stone of the opponent. So live
//! is a function of the board and the link, and needs no mark: the links that a live link was made from are live with
//! it, since their carriers are inside its own and their ends are its ends, own stones, or in its carrier.
//!
//! What is allowed on a position tells it for all links: the empty cells, and the vertices that may be ends. It is
//! taken once for a position, so that a pass over many links has it at hand.

ghost use Rattle.std.specs.Prelude.{◌≡◌, ◌↔◌, IsTrue, false};
ghost use Rattle.hx_board.specs.declared.colours.Colour.{Colour};
ghost use Rattle.hx_board.specs.Positions.{Board};
ghost use Rattle.hx_link.specs.Steps.{IsEnd, IsAllowed};
ghost use Rattle.hx_linkset.specs.States.{IsLive};
ghost use Rattle.hx_linkset.specs.Losses.{AreLosses};

use hx_board::{Mask, VertexSet};
use hx_link::{Allowed, Link};

/// Whether a link is live on each board where this is allowed.
#[inline(always)]
pub(crate) fn is_live(allowed: &Allowed, link: &Link) -> bool
    ensures { (board : Board) (player : Colour) → IsAllowed allowed.now board player
        → IsTrue result ↔ IsLive board player link.now }
{
    let (_a, _b) = (link.a.code(), link.b.code());
    link.carrier.inside(allowed.empties) && allowed.ends.has(link.a) && allowed.ends.has(link.b)
}

/// What a play takes away from the links of a player.
#[derive(Clone, Copy)]
pub(crate) struct Losses {
    /// The cells that it fills.
    pub(crate) filled: Mask,

    /// The vertices that may be ends no more, and whether there are any.
    pub(crate) ends: VertexSet,
    pub(crate) has_ends: bool,

    /// All of these that are cells.
    pub(crate) taken: Mask,
}

/// What a play takes away, by what is allowed before it and after it. It is taken once for a pass over all links, and
/// not made again at each of them.
#[inline(never)]
pub(crate) fn losses_of(before: &Allowed, after: &Allowed) -> Losses
    ensures { AreLosses result before.now after.now }
{
    let filled = before.empties.minus(after.empties);
    let ends = before.ends.minus(after.ends);
    Losses {
        filled,
        ends,
        has_ends: before.ends != after.ends,
        taken: filled.union(ends.cells()),
    }
}

/// Whether a play takes an end of a link.
#[inline(always)]
fn loses_end(losses: &Losses, link: &Link) -> bool
    ensures lost { (before after : Allowed) (new : Board) (player : Colour)
        → AreLosses losses.now before after → IsAllowed after new player
        → IsTrue result → IsLive new player link.now → ⊥ }
    ensures kept { (before after : Allowed) (old new : Board) (player : Colour)
        → AreLosses losses.now before after → IsAllowed before old player
        → IsAllowed after new player → result ≡ false → IsLive old player link.now
        → IsEnd new player link.now.a × IsEnd new player link.now.b }
{
    let (_a, _b) = (link.a.code(), link.b.code());
    losses.has_ends && (losses.ends.has(link.a) || losses.ends.has(link.b))
}

/// Whether a link that is live before a play is not live after it. Of most links that it touches a play takes a cell,
/// so that is asked first.
#[inline(always)]
pub(crate) fn is_dropped(losses: &Losses, link: &Link) -> bool
    ensures dropped { (before after : Allowed) (new : Board) (player : Colour)
        → AreLosses losses.now before after → IsAllowed after new player
        → IsTrue result → IsLive new player link.now → ⊥ }
    ensures kept { (before after : Allowed) (old new : Board) (player : Colour)
        → AreLosses losses.now before after → IsAllowed before old player
        → IsAllowed after new player
        → result ≡ false → IsLive old player link.now → IsLive new player link.now }
{
    link.carrier.meets(losses.filled) || loses_end(losses, link)
}
