//! What the workers give back, taken apart, since the book takes back its seats and the counts take back theirs.

ghost use Rattle.std.specs.Prelude.{◌≡◌, IfOk, vec_len};
ghost use Rattle.std.specs.List.{All};
ghost use Rattle.hx_pool.specs.Seats.{IsAfter};
ghost use Rattle.hx_pool.specs.Parts.{HasRoom, HaveAllTried, IsEndOfSome};

use crate::crews::Crew;
use crate::errands::Errand;
use crate::seats::{Done, Place};
use hx_board::Memory;
use hx_count::CountSeat;
use hx_limits::RanOut;
use hx_share::BookSeat;
use std::alloc::Global;

/// The seats of all workers, in one order, and how their work ended.
#[derive(Drop)]
pub(crate) struct Parts<F> {
    pub(crate) books: Vec<BookSeat>,
    pub(crate) counts: Vec<CountSeat>,
    pub(crate) ends: Vec<Result<F, RanOut>>,
}

impl<F: Drop> Parts<F> {
    /// Room for the parts of so many workers. It is taken before the work begins, so no proof is lost for want of room.
    pub(crate) fn with_room(alloc: Global, workers: u32) -> Result<Parts<F>, Memory>
        ensures { IfOk result (HasRoom workers) }
    {
        let Ok(books) = Vec::with_capacity(alloc, workers as usize) else {
            return Err(Memory);
        };
        let Ok(counts) = Vec::with_capacity(alloc, workers as usize) else {
            return Err(Memory);
        };
        let Ok(ends) = Vec::with_capacity(alloc, workers as usize) else {
            return Err(Memory);
        };
        Ok(Parts {
            books,
            counts,
            ends,
        })
    }
}

impl<E: Errand> Crew<'_, E> {
    /// The parts of what these workers gave back.
    pub(crate) fn take_apart(
        &self,
        mut places: Vec<Place<E::Found>>,
        mut parts: Parts<E::Found>,
    ) -> Parts<E::Found>
        requires after { All
            (IsAfter (E.proved self.now.errand.now) (E.tried self.now.errand.now)
            self.now.bench.now.shared.now.made self.now.bench.now.counts.now)
            places.items }
        requires room { HasRoom (vec_len places) parts }
        ensures lens { (vec_len result.books ≡ vec_len places)
            × (vec_len result.counts ≡ vec_len places) × (vec_len result.ends ≡ vec_len places) }
        ensures books { All (λ s. s.made ≡ self.now.bench.now.shared.now.made) result.books.items }
        ensures counts { All (λ s. s.made ≡ self.now.bench.now.counts.now) result.counts.items }
        ensures ends { All
            (IsEndOfSome (E.proved self.now.errand.now) result.books.items result.counts.items)
            result.ends.items }
        ensures tried { HaveAllTried (E.tried self.now.errand.now) result.counts.items
            result.ends.items }
    {
        while let Some(place) = places.pop() {
            let Place::After(done) = place else {
                unreachable!()
            };
            let Done { book, counts, end } = done;
            parts.books.push_reserved(book);
            parts.counts.push_reserved(counts);
            parts.ends.push_reserved(end);
        }
        parts
    }
}
