//! What a visit goes on with after fill-in: the situation that it looks at.

ghost use Rattle.std.specs.Prelude.{◌≡◌, ◌↔◌, ◌++◌, [], IfOk, IsFalse};
ghost use Rattle.hx_pn.specs.Numbers.{IsNumbers};
ghost use Rattle.hx_ordering.specs.Stones.{stones_of_move, stones_of_fills};

use crate::starts::Start;
use crate::stones::{Stone, stones_of};
use hx_board::{Cell, Colour, Memory};
use hx_fill::Filled;
use hx_pn::Numbers;
use hx_turn::Orientations;
use std::alloc::Global;

/// A position after fill-in with the player to move, and what a visit there goes on with.
#[derive(Drop)]
pub struct Situation {
    /// The position after fill-in.
    pub filled: Orientations,
    pub to_move: Colour,

    /// The move that led to the position.
    pub moved: Option<Cell>,

    /// The visit ends where its numbers come to this.
    pub limit: Numbers,

    /// Whether anything was filled.
    pub is_filled: bool,

    /// The stones that neither set of links has yet.
    pub stones: Vec<Stone>,
    ghost within: { IsNumbers limit },
}

impl Situation {
    /// The situation of this start, with what was filled in.
    pub fn of(alloc: Global, start: &Start, filled: &Filled) -> Result<Situation, Memory>
        ensures filled { IfOk result (λ situation. situation.filled ≡ filled.now.position) }
        ensures to_move { IfOk result (λ situation. situation.to_move ≡ start.now.to_move) }
        ensures moved { IfOk result (λ situation. situation.moved ≡ start.now.moved) }
        ensures limit { IfOk result (λ situation. situation.limit ≡ start.now.limit) }
        ensures is_filled { IfOk result (λ situation.
            IsFalse situation.is_filled ↔ (filled.now.steps.items ≡ [])) }
        ensures stones { IfOk result (λ situation. situation.stones.items
            ≡ stones_of_move start.now.moved start.now.to_move
            ++ stones_of_fills filled.now.steps.items) }
    {
        Ok(Situation {
            filled: Orientations::of(&filled.position),
            to_move: start.to_move,
            moved: start.moved,
            limit: start.limit,
            is_filled: !filled.steps.is_empty(),
            stones: stones_of(alloc, start, filled)?,
        })
    }
}
