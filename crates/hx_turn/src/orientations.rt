//! A position beside the turned one.
//!
//! Who goes through many positions and asks for a key that turned positions share keeps both: a stone more is then one
//! cell more in each, where to turn a position anew is to reverse two sets.
//!
//! A key is folded anew where it is asked for, by a few products, and not kept by exclusive-ors with a table of keys:
//! what is kept is the turned position, which a search needs in any case to look for it. `Orientations` is `Copy`,
//! since its fields come back from the board that contracts see (`turned_of`).

ghost use Rattle.std.specs.Prelude.{◌≡◌};
ghost use Rattle.hx_board.specs.Positions.{IsEmpty, put};
ghost use Rattle.hx_turn.specs.Turned.{IsTurned};
ghost use Rattle.hx_turn.specs.Keys.{key_of};

use crate::keys::folded_key;
use crate::turns::{turned, turned_cell};
use hx_board::{Cell, Colour, Position};
use std::marker::Model;

/// A position and the one turned by 180 degrees. Contracts see it as the position's board.
#[derive(Clone, Copy, PartialEq, Eq, Debug)]
pub struct Orientations {
    position: Position,
    turned: Position,
}

impl Model for Orientations {
    ghost use Rattle.std.specs.Prelude.{◌≡◌};
    ghost use Rattle.std.proofs.Common.{ap, sym};
    ghost use Rattle.hx_board.specs.Positions.{Board};
    ghost use Rattle.hx_turn.specs.TurnedStones.{turned_of};

    ghost Value = { Board };

    ghost view = { λ o. o.position };

    ghost invariant = { λ o. o.turned ≡ turned_of o.position };

    ghost inverse = { λ b. record { position = b; turned = turned_of b } };

    ghost inverse_ok = { λ a h.
        ap (λ (b : Board). record { position = a.position; turned = b }) (sym h) };
}

impl Orientations {
    /// A position with the turned one.
    pub fn of(position: &Position) -> Orientations
        ensures { result ≡ position.now }
    {
        // The proof takes from here that the position's board is one.
        let _size = position.size();
        Orientations {
            position: *position,
            turned: turned(position),
        }
    }

    /// The position.
    pub fn position(&self) -> &Position
        ensures { result.now ≡ self.now }
    {
        &self.position
    }

    /// The position turned by 180 degrees.
    pub fn turned(&self) -> &Position
        ensures { IsTurned self.now result.now }
    {
        // The proof takes from here that the position's board is one.
        let _size = self.position.size();
        &self.turned
    }

    /// Both with a stone of this colour more, on an empty cell of the position.
    pub fn with(&self, colour: Colour, cell: Cell) -> Orientations
        requires { IsEmpty self.now cell }
        ensures { result ≡ put self.now colour cell }
    {
        let mut next = *self;
        next.play(colour, cell);
        next
    }

    /// Puts a stone of this colour on an empty cell of the position. Nothing else changes.
    pub fn play(&mut self, colour: Colour, cell: Cell)
        requires { IsEmpty self.old cell }
        ensures { self.new ≡ put self.old colour cell }
    {
        let there = turned_cell(self.position.size(), cell);
        self.position.play(colour, cell);
        self.turned.play(colour, there);
    }

    /// The key of the position and the player to move, which the turned position has too: the lesser of the folded
    /// keys of both.
    pub fn key(&self, to_move: Colour) -> u64
        ensures { result ≡ key_of self.now to_move }
    {
        let here = folded_key(&self.position, to_move);
        let there = folded_key(&self.turned, to_move);
        if here <= there { here } else { there }
    }
}

/// The key of a position and the player to move, which the turned position has too.
pub fn key(position: &Position, to_move: Colour) -> u64
    ensures { result ≡ key_of position.now to_move }
{
    let both = Orientations::of(position);
    both.key(to_move)
}
