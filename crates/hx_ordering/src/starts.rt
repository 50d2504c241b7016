//! What a visit is given.

ghost use Rattle.hx_pn.specs.Numbers.{IsNumbers};

use hx_board::{Cell, Colour};
use hx_pn::Numbers;
use hx_turn::Orientations;

/// What a visit is given.
#[derive(Drop)]
pub struct Start {
    /// The position before fill-in.
    pub here: Orientations,
    pub to_move: Colour,

    /// The move that led to the position. The sets of links do not have its stone yet. None where no move led to it.
    pub moved: Option<Cell>,

    /// The visit ends where its numbers come to this.
    pub limit: Numbers,
    ghost within: { IsNumbers limit },
}
