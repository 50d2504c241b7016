//! Whether a live link decides a position: it joins the sides of the set's player, and he needs no move more, or has
//! it.

ghost use Rattle.std.specs.Prelude.{◌≡◌, ◌↔◌, IsTrue};
ghost use Rattle.hx_reach.specs.Decided.{IsReached};

use hx_board::{Colour, Vertex};
use hx_link::Kind;
use hx_linkset::LinkSet;

/// What the live links of a set show of its position.
#[derive(Clone, Copy, PartialEq, Eq, Debug)]
pub enum Reached {
    /// The set's player wins: the live link at this index joins the player's two sides, and it is Full, or the player
    /// is to move.
    Decided(u32),

    /// No such link is live.
    Open,
}

/// Whether the set's player wins by a live link, where `to_move` is to move.
pub fn decided(set: &LinkSet, to_move: Colour) -> Reached
    ensures { IsReached set.now to_move result }
{
    if let Some(index) = set.first_of(Kind::Full, Vertex::First, Vertex::Last) {
        return Reached::Decided(index);
    }
    let with_move = is_to_move(set, to_move);
    if !with_move {
        return Reached::Open;
    }
    match set.first_of(Kind::Semi, Vertex::First, Vertex::Last) {
        Some(index) => Reached::Decided(index),
        None => Reached::Open,
    }
}

/// Whether the set's player is to move.
fn is_to_move(set: &LinkSet, to_move: Colour) -> bool
    ensures { IsTrue result ↔ (set.now.player ≡ to_move) }
{
    set.colour() == to_move
}
