//! The seats of a shared book, one for each worker, and the notes by which one tells another what it has seen.

ghost use Rattle.std.specs.Prelude.{◌≡◌, ◌≤◌, [], length};
ghost use Rattle.hx_book.specs.declared.books.TheConstants.{MOST_SLOTS};
ghost use Rattle.hx_book.specs.Entries.{contents, IsBook};
ghost use Rattle.hx_share.specs.declared.views.Role.TheVariants.{Note, Waiting};
ghost use Rattle.hx_share.specs.OneList.{alone, first_part};
ghost use Rattle.hx_share.specs.Readers.{reader, origin};

use crate::views::View;
use atomic_table::Seat;
use hx_book::Book;
use std::marker::Model;

/// What a worker looks and stores with. A seat of `Shared::start` fits that shared book alone.
#[derive(Drop)]
pub struct BookSeat {
    pub(crate) seat: Seat<Option<Book>, View>,
    pub(crate) seen: u32,
}

impl Model for BookSeat {
    ghost use Rattle.hx_share.specs.declared.views.Role.TheVariants.{Waiting};
    ghost use Rattle.hx_share.specs.OneList.{first_part};
    ghost use Rattle.hx_share.specs.Readers.{Reader, reader_of, ReaderKeeps};

    ghost Value = { Reader };

    ghost view = { λ s. reader_of s.seat.table_id (first_part s.seat.me.0) };

    ghost invariant = { λ s. ReaderKeeps Waiting s.seat.me s.seen };
}

/// What a seat had seen when it made the note. Any thread may have it.
#[derive(Drop)]
pub struct BookNote {
    pub(crate) seat: Seat<Option<Book>, View>,
    pub(crate) seen: u32,
}

impl Model for BookNote {
    ghost use Rattle.hx_share.specs.declared.views.Role.TheVariants.{Note};
    ghost use Rattle.hx_share.specs.OneList.{first_part};
    ghost use Rattle.hx_share.specs.Readers.{Reader, reader_of, ReaderKeeps};

    ghost Value = { Reader };

    ghost view = { λ s. reader_of s.seat.table_id (first_part s.seat.me.0) };

    ghost invariant = { λ s. ReaderKeeps Note s.seat.me s.seen };
}

impl BookSeat {
    /// The seat of a worker who has seen nothing yet.
    pub(crate) fn new(seat: Seat<Option<Book>, View>) -> BookSeat
        requires new { seat.me ≡ alone (first_part seat.me.0).slots Waiting [] }
        requires small { (first_part seat.me.0).slots ≤ MOST_SLOTS }
        ensures { result ≡ reader (origin seat.table_id (first_part seat.me.0).slots) [] }
    {
        BookSeat { seat, seen: 0 }
    }

    /// Its part in the table.
    pub(crate) fn into_seat(self) -> Seat<Option<Book>, View>
        ensures table { result.table_id ≡ self.made.table }
        ensures part { result.me ≡ alone self.made.slots Waiting self.seen }
    {
        let BookSeat { seat, seen: _ } = self;
        seat
    }

    /// How many nodes it has seen.
    pub fn seen(&self) -> u32
        ensures { result ≡ length self.now.seen }
    {
        self.seen
    }

    /// What is true of what each seat has seen: it is what a book may hold that has the slots of the shared one. The
    /// call does nothing.
    pub fn keeps(&self)
        ensures { IsBook (contents self.now.made.slots self.now.seen) }
    {
        // To read a field brings the type's invariant to the proof.
        let _seen = self.seen;
    }
}

impl BookNote {
    /// Its part in the table.
    pub(crate) fn into_seat(self) -> Seat<Option<Book>, View>
        ensures table { result.table_id ≡ self.made.table }
        ensures part { result.me ≡ alone self.made.slots Note self.seen }
    {
        let BookNote { seat, seen: _ } = self;
        seat
    }
}
