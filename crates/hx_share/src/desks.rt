//! A worker's place at a shared book.

ghost use Rattle.std.specs.Prelude.{◌≡◌};

use crate::readers::BookSeat;
use crate::shared::Shared;
use hx_board::{Colour, Position};
use hx_book::{NoSlot, Proofs, Wider};
use hx_packed::Offer;
use hx_tree::Found;
use std::sync::Wait;

/// A shared book, and a seat made by it.
#[derive(Drop)]
pub struct Desk<'a> {
    pub shared: &'a Shared,
    pub seat: BookSeat,
    pub ghost fits: { seat.made ≡ shared.now.made },
}

impl<'a> Proofs for Desk<'a> {
    ghost use Rattle.std.specs.Prelude.{false};
    ghost use Rattle.hx_share.specs.Readers.{sight_of};

    ghost is_plain = { false };

    ghost sight = { λ d. sight_of d.seat };

    fn plain(&self) -> bool {
        false
    }

    fn keeps(&self) {}

    fn look<R: Wait>(&mut self, rt: &R, position: &Position, to_move: Colour) -> Option<Found> {
        self.shared.look(rt, &mut self.seat, position, to_move)
    }

    fn look_wider<R: Wait>(
        &mut self,
        rt: &R,
        position: &Position,
        to_move: Colour,
        winner: Colour,
    ) -> Option<Wider> {
        self.shared
            .look_wider(rt, &mut self.seat, position, to_move, winner)
    }

    fn store<R: Wait>(&mut self, rt: &R, offer: Offer) -> Result<u32, NoSlot> {
        self.shared.store(rt, &mut self.seat, offer)
    }
}
