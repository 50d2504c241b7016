//! Two seats for each worker, at a place of its own.

ghost use Rattle.std.specs.Prelude.{◌≡◌, ◌≤◌, IfOk, vec_len};
ghost use Rattle.std.specs.List.{All};
ghost use Rattle.hx_count.specs.Machine.{HasNothing};
ghost use Rattle.hx_count.specs.Seats.{own};
ghost use Rattle.hx_pool.specs.Seats.{IsBefore};

use crate::benches::Bench;
use crate::seats::{Place, Seats};
use hx_board::Memory;
use hx_count::CountSeat;
use hx_share::BookSeat;
use std::alloc::Global;

impl Bench<'_> {
    /// The places of the workers, with their seats.
    pub(crate) fn deal<F: Drop>(
        &self,
        alloc: Global,
        mut books: Vec<BookSeat>,
        mut counts: Vec<CountSeat>,
    ) -> Result<Vec<Place<F>>, Memory>
        requires len { vec_len books ≡ vec_len counts }
        requires few { vec_len books ≤ 64 }
        requires books { All (λ s. s.made ≡ self.now.shared.now.made) books.items }
        requires counts { All (λ s. s.made ≡ self.now.counts.now) counts.items }
        requires nothing { All (λ s. HasNothing (own s)) counts.items }
        ensures len { IfOk result (λ dealt. vec_len dealt ≡ vec_len books) }
        ensures places { IfOk result
            (λ dealt. All (IsBefore self.now.shared.now.made self.now.counts.now) dealt.items) }
    {
        let Ok(mut dealt) = Vec::with_capacity(alloc, books.len()) else {
            return Err(Memory);
        };
        while let Some(book) = books.pop() {
            let Some(seat) = counts.pop() else {
                unreachable!()
            };
            dealt.push_reserved(Place::Before(Seats {
                worker: books.len() as u32,
                book,
                counts: seat,
            }));
        }
        Ok(dealt)
    }
}
