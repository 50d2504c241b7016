//! The shared book, and what workers do with it.
//!
//! The book lies in the one slot of a table. The table's one word is twice the number of nodes that the book holds, and
//! one more while a seat has the book. A seat that wants it makes an even word odd, takes the book out of the slot,
//! puts it back and writes the even word of the book as it is then. So a book is never copied, and nobody reads it
//! while another writes.

ghost use Rattle.std.specs.Prelude.{◌≡◌, ◌+◌, ◌*◌, ◌<◌, ◌≤◌, [], ◌∷◌, None, false, map, length, replicate, IfOk, IfErr};
ghost use Rattle.std.specs.List.{All};
ghost use Rattle.hx_tree.specs.Rules.{IsRightNode};
ghost use Rattle.hx_tree.specs.Trees.{headings_of};
ghost use Rattle.hx_tree.specs.Entries.{Extends, FindsFirst, HasNoEntry, IsFirstEntry};
ghost use Rattle.hx_book.specs.declared.books.TheConstants.{MOST_SLOTS};
ghost use Rattle.hx_book.specs.Puts.{PutsLater};
ghost use Rattle.hx_book.specs.WiderEntry.{FindsWider};
ghost use Rattle.hx_share.specs.declared.views.Role.TheVariants.{Note, Waiting};
ghost use Rattle.hx_share.specs.Fronts.{AreFronts, longer};
ghost use Rattle.hx_share.specs.OneList.{view, first_view, has_book, alone, acting, first_part};
ghost use Rattle.hx_share.specs.Readers.{reader, part_of};

use crate::readers::{BookNote, BookSeat};
use crate::rules::{AllParts, FirstPart, GivingBack, Noting, OneList, Settling, TakingBook};
use crate::views::{Limits, View};
use atomic_table::{Refused, Seat, Table};
use crossbeam_utils::Backoff;
use hx_board::{Colour, Memory, Position};
use hx_book::{Book, NoSlot, Wider};
use hx_packed::Offer;
use hx_tree::Found;
use std::alloc::Global;
use std::marker::Model;
use std::sync::Wait;

/// A book that many workers share.
#[derive(Drop)]
pub struct Shared {
    table: Table<Option<Book>, View, Limits, OneList, Global>,
    limits: Limits,
}

impl Model for Shared {
    ghost use Rattle.std.specs.Prelude.{◌≡◌, ◌<◌};
    ghost use Rattle.hx_share.specs.OneList.{AreSmall};
    ghost use Rattle.hx_share.specs.Readers.{Sharing, sharing, origin};

    ghost Value = { Sharing };

    ghost view = { λ s. sharing (origin s.table.shared.table_id s.limits.slots) s.limits.seats };

    ghost invariant = { λ s. (s.table.shared.table_id.words ≡ 1)
        × (s.table.shared.table_id.slots ≡ 1) × (s.table.shared.key ≡ s.limits)
        × AreSmall s.limits × (0 < s.limits.seats) };
}

impl Shared {
    /// An empty book that has room for so many nodes, and so many seats, which have seen nothing. At most `MOST_SLOTS`
    /// slots, 1 to 64 seats.
    pub fn start(alloc: Global, slots: u32, seats: u32) -> Result<(Shared, Vec<BookSeat>), Memory>
        requires slots { slots ≤ MOST_SLOTS }
        requires seats { (0 < seats) × (seats ≤ 64) }
        ensures limits { IfOk result (λ made. (made.0.made.slots ≡ slots)
            × (made.0.seats ≡ seats)) }
        ensures seats { IfOk result (λ made. made.1.items
            ≡ replicate seats (reader made.0.made [])) }
        ensures fit { IfOk result (λ made. All (λ s. s.made ≡ made.0.made) made.1.items) }
    {
        let book = Book::with_slots(alloc, slots)?;
        let Ok(mut books) = Vec::with_capacity(alloc, 1) else {
            return Err(Memory);
        };
        books.push_reserved(Some(book));
        let limits = Limits { slots, seats };
        let (table, first) = match Table::new(alloc, &[0], books, &limits) {
            Ok(made) => made,
            Err(Refused { slots: _ }) => return Err(Memory),
        };
        let shared = Shared { table, limits };
        let dealt = shared.deal(alloc, first)?;
        Ok((shared, dealt))
    }

    /// A seat for each worker, from the first seat, which has the parts of all.
    fn deal(
        &self,
        alloc: Global,
        mut first: Seat<Option<Book>, View>,
    ) -> Result<Vec<BookSeat>, Memory>
        requires table { first.table_id ≡ self.now.made.table }
        requires parts { first.me
            ≡ (first_view (record { slots = self.now.made.slots; seats = self.now.seats }), []) }
        ensures seats { IfOk result (λ seats. seats.items
            ≡ replicate self.now.seats (reader self.now.made [])) }
        ensures fit { IfOk result (λ seats. All (λ s. s.made ≡ self.now.made) seats.items) }
    {
        let count = self.limits.seats;
        let Ok(mut seats) = Vec::with_capacity(alloc, count as usize) else {
            return Err(Memory);
        };
        for _ in 1..count {
            let part = self.table.shared.split_seat::<FirstPart>(&mut first);
            seats.push_reserved(BookSeat::new(part));
        }
        seats.push_reserved(BookSeat::new(first));
        Ok(seats)
    }

    /// The first entry of a position and mover, of the nodes that the seat has then seen, which are all that the book
    /// holds. None exactly where there is none. It may wait for the book.
    pub fn look<R: Wait>(
        &self,
        rt: &R,
        seat: &mut BookSeat,
        position: &Position,
        to_move: Colour,
    ) -> Option<Found>
        requires { seat.old.made ≡ self.now.made }
        ensures made { seat.new.made ≡ seat.old.made }
        ensures seen { Extends seat.old.seen seat.new.seen }
        ensures found { FindsFirst seat.new.seen position.now to_move result }
    {
        let book = self.take_book(rt, &mut seat.seat);
        book.keeps();
        let found = book.find(position, to_move);
        seat.seen = book.held();
        self.give_back(&mut seat.seat, book);
        found
    }

    /// An entry of this mover and winner that serves the position, of the nodes that the seat has then seen, which are
    /// all that the book holds: its winner has the same stones, and the opponent's stones of the position are all in
    /// the entry's. None exactly where there is none. It may wait for the book.
    pub fn look_wider<R: Wait>(
        &self,
        rt: &R,
        seat: &mut BookSeat,
        position: &Position,
        to_move: Colour,
        winner: Colour,
    ) -> Option<Wider>
        requires { seat.old.made ≡ self.now.made }
        ensures made { seat.new.made ≡ seat.old.made }
        ensures seen { Extends seat.old.seen seat.new.seen }
        ensures found { FindsWider false seat.new.seen position.now to_move winner result }
    {
        let book = self.take_book(rt, &mut seat.seat);
        book.keeps();
        let wider = book.find_wider(position, to_move, winner);
        seat.seen = book.held();
        self.give_back(&mut seat.seat, book);
        wider
    }

    /// Stores a node that is right after those that the seat has seen. The index of the entry of its position and
    /// mover, of the nodes that the seat has then seen. The node comes back exactly where there is no such entry and
    /// each slot is taken. It may wait for the book.
    pub fn store<R: Wait>(&self, rt: &R, seat: &mut BookSeat, offer: Offer) -> Result<u32, NoSlot>
        requires seat { seat.old.made ≡ self.now.made }
        requires node { IsRightNode (headings_of seat.old.seen) offer }
        ensures made { seat.new.made ≡ seat.old.made }
        ensures seen { Extends seat.old.seen seat.new.seen }
        ensures stored { PutsLater self.now.made.slots seat.old.seen offer result seat.new.seen }
        ensures first { IfOk result (λ place. IsFirstEntry seat.new.seen
            offer.heading.position offer.heading.to_move place) }
        ensures none { IfErr result (λ refusal. HasNoEntry seat.new.seen
            offer.heading.position offer.heading.to_move) }
        ensures full { IfErr result (λ refusal. length seat.new.seen ≡ self.now.made.slots) }
        ensures back { IfErr result (λ refusal. refusal
            ≡ record { held = self.now.made.slots; node = offer }) }
    {
        let mut book = self.take_book(rt, &mut seat.seat);
        let answer = book.put(offer);
        book.keeps();
        seat.seen = book.held();
        self.give_back(&mut seat.seat, book);
        answer
    }

    /// A note of what the seat has seen.
    pub fn tell(&self, from: &mut BookSeat) -> BookNote
        requires { from.old.made ≡ self.now.made }
        ensures from { from.new ≡ from.old }
        ensures note { result ≡ from.old }
    {
        let seat = self.table.shared.split_seat::<Noting>(&mut from.seat);
        BookNote {
            seat,
            seen: from.seen,
        }
    }

    /// The seat has then seen what the note has, too: of the two lists the longer one, which begins with either.
    pub fn learn(&self, seat: &mut BookSeat, note: BookNote)
        requires seat { seat.old.made ≡ self.now.made }
        requires note { note.made ≡ self.now.made }
        ensures made { seat.new.made ≡ seat.old.made }
        ensures longer { seat.new.seen ≡ longer seat.old.seen note.seen }
        ensures seen { Extends seat.old.seen seat.new.seen }
        ensures told { Extends note.seen seat.new.seen }
    {
        let told = note.seen;
        self.absorb(&mut seat.seat, note.into_seat());
        seat.seen = seat.seen.max(told);
    }

    /// What any two seats have seen are fronts of one list. The call makes a note of each, lets one learn the other,
    /// and changes neither seat.
    pub fn compare(&self, one: &mut BookSeat, other: &mut BookSeat)
        requires one { one.old.made ≡ self.now.made }
        requires other { other.old.made ≡ self.now.made }
        ensures one { one.new ≡ one.old }
        ensures other { other.new ≡ other.old }
        ensures fronts { AreFronts one.old.seen other.old.seen }
    {
        let mut first = self.tell(one).into_seat();
        let second = self.tell(other).into_seat();
        self.absorb(&mut first, second);
    }

    /// Ends the sharing, with all seats given back. The book's list begins with what any of them has seen.
    pub fn close(self, seats: Vec<BookSeat>) -> Book
        requires all { length seats.items ≡ self.seats }
        requires own { All (λ s. s.made ≡ self.made) seats.items }
        ensures slots { result.slots ≡ self.made.slots }
        ensures seen { All (λ s. Extends s.seen result.nodes) seats.items }
    {
        let seat = self.gather(seats);
        let Shared { table, limits: _ } = self;
        let mut closed = table.close_with(seat);
        let book = closed.take(0).unwrap();
        closed.free();
        book
    }

    /// One seat with the parts of all these.
    fn gather(&self, mut seats: Vec<BookSeat>) -> Seat<Option<Book>, View>
        requires some { 0 < length seats.items }
        requires own { All (λ s. s.made ≡ self.now.made) seats.items }
        ensures table { result.table_id ≡ self.now.made.table }
        ensures parts { result.me ≡ (view (map part_of seats.items), []) }
    {
        let Some(last) = seats.pop() else {
            unreachable!()
        };
        let mut seat = last.into_seat();
        while let Some(other) = seats.pop() {
            self.table
                .shared
                .join_seat::<AllParts>(&mut seat, other.into_seat());
        }
        seat
    }

    /// Waits until no other seat has the book, and takes it. A seat that waits pauses, for longer each time, and then
    /// lets other threads run, so that the one that has the book gets on.
    fn take_book<R: Wait>(&self, rt: &R, seat: &mut Seat<Option<Book>, View>) -> Book
        requires table { seat.old.table_id ≡ self.now.made.table }
        requires waits { seat.old.me
            ≡ alone self.now.made.slots Waiting (first_part seat.old.me.0).seen }
        ensures table { seat.new.table_id ≡ seat.old.table_id }
        ensures acts { seat.new.me ≡ acting self.now.made.slots result.nodes None }
        ensures slots { result.slots ≡ self.now.made.slots }
        ensures seen { Extends (first_part seat.old.me.0).seen result.nodes }
    {
        let table = &self.table.shared;
        let backoff = Backoff::new();
        for _ in rt.forever() {
            let found = table.peek(0);
            if found % 2 == 0
                && table.compare_exchange::<TakingBook>(seat, 0, found, found + 1) == found
            {
                return table.exchange(seat, 0, None).unwrap();
            }
            backoff.snooze();
        }
        unreachable!()
    }

    /// Gives back the book.
    fn give_back(&self, seat: &mut Seat<Option<Book>, View>, book: Book)
        requires table { seat.old.table_id ≡ self.now.made.table }
        requires acts { seat.old.me
            ≡ acting self.now.made.slots (first_part seat.old.me.0).seen None }
        requires slots { book.slots ≡ self.now.made.slots }
        requires more { Extends (first_part seat.old.me.0).seen book.nodes }
        ensures table { seat.new.table_id ≡ seat.old.table_id }
        ensures waits { seat.new.me ≡ alone self.now.made.slots Waiting book.nodes }
    {
        book.keeps();
        let word = 2 * u64::from(book.held());
        drop(self.table.shared.exchange(seat, 0, Some(book)));
        self.table.shared.store::<GivingBack>(seat, 0, word);
    }

    /// Takes in a note. A join of seats tells nothing of their lists; the load after it is a step of the table, at
    /// which both are fronts of its one list.
    fn absorb(&self, seat: &mut Seat<Option<Book>, View>, note: Seat<Option<Book>, View>)
        requires tables { (seat.old.table_id ≡ self.now.made.table)
            × (note.table_id ≡ self.now.made.table) }
        requires own { seat.old.me ≡ alone self.now.made.slots (first_part seat.old.me.0).role
            (first_part seat.old.me.0).seen }
        requires waits { has_book (first_part seat.old.me.0).role ≡ false }
        requires note { note.me ≡ alone self.now.made.slots Note (first_part note.me.0).seen }
        ensures table { seat.new.table_id ≡ seat.old.table_id }
        ensures own { seat.new.me ≡ alone self.now.made.slots (first_part seat.old.me.0).role
            (longer (first_part seat.old.me.0).seen (first_part note.me.0).seen) }
        ensures fronts { AreFronts (first_part seat.old.me.0).seen (first_part note.me.0).seen }
    {
        self.table.shared.join_seat::<AllParts>(seat, note);
        self.table.shared.load::<Settling>(seat, 0);
    }
}
