//! The counts, and what workers do with them.
//!
//! Word 0 of the table counts the spends, and each other word is a loss word. A spend adds one to word 0 and looks at
//! the number before it: so no two spends take the same unit, and no worker waits for another.
//!
//! When the program runs a spend is that one addition and nothing beside it: what a seat knows of the history is there
//! for the proof alone.

ghost use Rattle.std.specs.Prelude.{◌≡◌, ◌<◌, ◌≤◌, ◌^◌, [], true, false, map, sum_by, slice_index, IfOk, IfErr, IsErr, length};
ghost use Rattle.std.specs.List.{All, Any};
ghost use Rattle.hx_count.specs.declared.events.CountEvent.TheVariants.{Hold, Release, Look};
ghost use Rattle.hx_count.specs.declared.events.TheConstants.{MOST_HELD};
ghost use Rattle.hx_count.specs.Machine.{granted_to_all, losses_at, held_in_all, holding, releasing, HasNothing};
ghost use Rattle.hx_count.specs.Counted.{view, first_view};
ghost use Rattle.hx_count.specs.Seats.{part_of, Seat as SeatSeen, own, state_seen, new_seats, Adds, Spends, AreTotals, after_spend};

use crate::rules::{AllParts, FirstPart, Holding, Looking, OneHistory, Releasing, Spending};
use crate::seats::{CountSeat, Spent};
use crate::totals::{Totals, sum_of_losses};
use crate::views::{Limits, View};
use atomic_table::{Seat, Table};
use hx_board::Memory;
use std::alloc::Global;
use std::marker::Model;

/// Units of a budget, and loss words.
#[derive(Drop)]
pub struct Counts {
    table: Table<(), View, Limits, OneHistory, Global>,
    limits: Limits,
}

impl Model for Counts {
    ghost use Rattle.std.specs.Prelude.{◌≡◌, ◌+◌, ◌<◌};
    ghost use Rattle.hx_count.specs.Counted.{AreSmall};
    ghost use Rattle.hx_count.specs.Counted.{view, first_view};
    ghost use Rattle.hx_count.specs.Seats.{part_of, Origin, origin};

    ghost Value = { Origin };

    ghost view = { λ c. origin c.table.shared.table_id c.limits };

    ghost invariant = { λ c. (c.table.shared.table_id.words ≡ c.limits.words + 1)
        × (c.table.shared.key ≡ c.limits) × AreSmall c.limits × (0 < c.limits.workers)
        × (c.table.shared.table_id.slots ≡ 0) };
}

impl Counts {
    /// Counts with so many units and loss words, and a seat for each worker, in the order of their numbers. Nothing is
    /// granted and nothing held. At most 2^40 units, 1 to 65,536 words, 1 to 64 seats.
    pub fn start(
        alloc: Global,
        budget: u64,
        words: u32,
        seats: u32,
    ) -> Result<(Counts, Vec<CountSeat>), Memory>
        requires budget { budget ≤ 2 ^ 40 }
        requires words { (0 < words) × (words ≤ 65536) }
        requires seats { (0 < seats) × (seats ≤ 64) }
        ensures limits { IfOk result (λ made. made.0.limits
            ≡ record { budget = budget; words = words; workers = seats }) }
        ensures seats { IfOk result (λ made. made.1.items ≡ new_seats made.0 0 seats) }
        ensures fit { IfOk result (λ made. All (λ s. s.made ≡ made.0) made.1.items) }
        ensures nothing { IfOk result (λ made. All (λ s. HasNothing (own s)) made.1.items) }
    {
        let limits = Limits {
            budget,
            words,
            workers: seats,
        };
        let Ok(zeros) = vec![in alloc; 0u64; words as usize + 1] else {
            return Err(Memory);
        };
        let Ok((table, first)) = Table::of_words(alloc, &zeros, &limits) else {
            return Err(Memory);
        };
        let counts = Counts { table, limits };
        let dealt = counts.deal(alloc, first)?;
        Ok((counts, dealt))
    }

    /// A seat for each worker, from the first seat, which has the parts of all.
    fn deal(&self, alloc: Global, mut first: Seat<(), View>) -> Result<Vec<CountSeat>, Memory>
        requires table { first.table_id ≡ self.now.table }
        requires parts { first.me ≡ (first_view self.now.limits, []) }
        ensures seats { IfOk result (λ seats. seats.items
            ≡ new_seats self.now 0 self.now.limits.workers) }
        ensures fit { IfOk result (λ seats. All (λ s. s.made ≡ self.now) seats.items) }
    {
        let workers = self.limits.workers;
        let Ok(mut seats) = Vec::with_capacity(alloc, workers as usize) else {
            return Err(Memory);
        };
        for _ in 1..workers {
            let part = self.table.shared.split_seat::<FirstPart>(&mut first);
            seats.push_reserved(CountSeat::new(part));
        }
        seats.push_reserved(CountSeat::new(first));
        Ok(seats)
    }

    /// Asks for a unit of the budget. `Spent` comes exactly where all units were granted, and tells how many that are.
    /// A seat that was refused once is refused from then on, and makes no further step.
    pub fn spend(&self, seat: &mut CountSeat) -> Result<(), Spent>
        requires { seat.old.made ≡ self.now }
        ensures made { seat.new.made ≡ seat.old.made }
        ensures next { (own seat.old).refused ≡ false → Spends seat.old result seat.new }
        ensures again { (own seat.old).refused ≡ true → IsErr result × (seat.new ≡ seat.old) }
        ensures own { own seat.new ≡ after_spend result (own seat.old) }
        ensures spent { IfErr result (λ taken. (taken ≡ self.now.limits.budget)
            × (granted_to_all (state_seen seat.new) ≡ self.now.limits.budget)) }
    {
        let budget = self.limits.budget;
        if seat.refused {
            return Err(Spent::new(budget));
        }
        let found = self
            .table
            .shared
            .fetch_add::<Spending>(&mut seat.seat, 0, 1);
        if found < budget {
            seat.granted += 1;
            return Ok(());
        }
        seat.refused = true;
        Err(Spent::new(budget))
    }

    /// Holds a loss word once more. The seat's worker holds fewer than `MOST_HELD` in all.
    pub fn hold(&self, seat: &mut CountSeat, word: u32)
        requires seat { seat.old.made ≡ self.now }
        requires word { word < self.now.limits.words }
        requires room { held_in_all (own seat.old) < MOST_HELD }
        ensures made { seat.new.made ≡ seat.old.made }
        ensures next { Adds seat.old (Hold seat.old.worker word) seat.new }
        ensures own { own seat.new ≡ holding word (own seat.old) }
        ensures held { 0 < slice_index (own seat.new).held word }
    {
        self.table
            .shared
            .fetch_add::<Holding>(&mut seat.seat, word as usize + 1, 1);
        seat.held += 1;
    }

    /// Holds a loss word once less, which the seat's worker holds.
    pub fn release(&self, seat: &mut CountSeat, word: u32)
        requires seat { seat.old.made ≡ self.now }
        requires word { word < self.now.limits.words }
        requires held { 0 < slice_index (own seat.old).held word }
        ensures made { seat.new.made ≡ seat.old.made }
        ensures next { Adds seat.old (Release seat.old.worker word) seat.new }
        ensures own { own seat.new ≡ releasing word (own seat.old) }
    {
        self.table
            .shared
            .fetch_sub::<Releasing>(&mut seat.seat, word as usize + 1, 1);
        seat.held -= 1;
    }

    /// How often all workers together hold a loss word. The look is an event too, which changes nothing.
    pub fn losses(&self, seat: &mut CountSeat, word: u32) -> u64
        requires seat { seat.old.made ≡ self.now }
        requires word { word < self.now.limits.words }
        ensures made { seat.new.made ≡ seat.old.made }
        ensures next { Adds seat.old (Look seat.old.worker word) seat.new }
        ensures own { own seat.new ≡ own seat.old }
        ensures sum { result ≡ losses_at (state_seen seat.new) word }
        ensures least { slice_index (own seat.old).held word ≤ result }
    {
        let place = word as usize + 1;
        self.table.shared.load::<Looking>(&mut seat.seat, place)
    }

    /// Ends the counts, of which all seats are given back, and tells the sums over all workers.
    pub fn close(self, seats: Vec<CountSeat>) -> Totals
        requires all { length seats.items ≡ self.limits.workers }
        requires own { All (λ s. s.made ≡ self) seats.items }
        ensures history { AreTotals self seats.items result.granted result.held }
        ensures granted { (result.granted ≡ sum_by (λ (s : SeatSeen). (own s).granted) seats.items)
            × (result.granted ≤ self.limits.budget) }
        ensures held { result.held ≡ sum_by (λ (s : SeatSeen). held_in_all (own s)) seats.items }
        ensures refused { Any (λ s. (own s).refused ≡ true) seats.items
            → result.granted ≡ self.limits.budget }
    {
        let seat = self.gather(seats);
        let Counts { table, limits } = self;
        let closed = table.close_with(seat);
        let granted = closed.word(0).min(limits.budget);
        let held = sum_of_losses(&closed, limits.words);
        closed.free();
        Totals { granted, held }
    }

    /// One seat with the parts of all these.
    fn gather(&self, mut seats: Vec<CountSeat>) -> Seat<(), View>
        requires some { 0 < length seats.items }
        requires own { All (λ s. s.made ≡ self.now) seats.items }
        ensures table { result.table_id ≡ self.now.table }
        ensures parts { result.me ≡ (view (map part_of seats.items), []) }
    {
        let Some(last) = seats.pop() else {
            unreachable!()
        };
        let mut seat = last.into_seat();
        while let Some(other) = seats.pop() {
            self.table
                .shared
                .join_seat::<AllParts>(&mut seat, other.into_seat());
        }
        seat
    }
}
