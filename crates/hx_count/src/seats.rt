//! The seats of the counts, one for each worker.

ghost use Rattle.std.specs.Prelude.{◌≡◌, [], ◌∷◌};
ghost use Rattle.hx_count.specs.Machine.{held_in_all};
ghost use Rattle.hx_count.specs.Counted.{view};
ghost use Rattle.hx_count.specs.Seats.{own, seat_of, first_part, part_of, IsNew};

use crate::views::View;
use atomic_table::Seat;
use std::marker::Model;
use thiserror::Error;

/// What a worker steps on the counts with. A seat of `Counts::start` fits those counts alone.
#[derive(Drop)]
pub struct CountSeat {
    pub(crate) seat: Seat<(), View>,
    pub(crate) granted: u64,

    // Of all words together: a caller knows which words it holds, and a table of 65,536 words
    // for each seat would be needed for nothing else.
    pub(crate) held: u32,
    pub(crate) refused: bool,
}

impl Model for CountSeat {
    ghost use Rattle.hx_count.specs.Seats.{Seat as SeatSeen, seat_of, first_part, SeatKeeps};

    ghost Value = { SeatSeen };

    ghost view = { λ s. seat_of s.seat.table_id (first_part s.seat.me.0) };

    ghost invariant = { λ s. SeatKeeps s.seat.me s.granted s.held s.refused };
}

/// Want of a unit: the answer of counts whose budget is all granted.
#[derive(Debug, Drop, Error)]
#[error("all {taken} units of the budget were granted")]
pub struct Spent {
    taken: u64,
}

impl Model for Spent {
    ghost use Rattle.std.specs.Prelude.{ℕ};

    ghost Value = { ℕ };

    ghost view = { λ s. s.taken };
}

impl Spent {
    /// The refusal by counts of which so many units are granted.
    pub(crate) fn new(taken: u64) -> Spent
        ensures { result ≡ taken }
    {
        Spent { taken }
    }

    /// How many units were granted.
    pub fn taken(&self) -> u64
        ensures { result ≡ self.now }
    {
        self.taken
    }
}

impl CountSeat {
    /// The seat of a worker who has done nothing yet.
    pub(crate) fn new(seat: Seat<(), View>) -> CountSeat
        requires { IsNew seat.me }
        ensures { result ≡ seat_of seat.table_id (first_part seat.me.0) }
    {
        CountSeat {
            seat,
            granted: 0,
            held: 0,
            refused: false,
        }
    }

    /// Its part in the table.
    pub(crate) fn into_seat(self) -> Seat<(), View>
        ensures table { result.table_id ≡ self.made.table }
        ensures part { result.me ≡ (view (part_of self ∷ []), []) }
    {
        let CountSeat {
            seat,
            granted: _,
            held: _,
            refused: _,
        } = self;
        seat
    }

    /// How many units its worker was granted.
    pub fn granted(&self) -> u64
        ensures { result ≡ (own self.now).granted }
    {
        self.granted
    }

    /// How often its worker holds a loss word, over all words.
    pub fn held(&self) -> u32
        ensures { result ≡ held_in_all (own self.now) }
    {
        self.held
    }

    /// Whether a spend of its worker was refused.
    pub fn refused(&self) -> bool
        ensures { result ≡ (own self.now).refused }
    {
        self.refused
    }
}
