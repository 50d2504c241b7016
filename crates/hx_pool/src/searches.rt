//! An errand of all workers, from the start of the book and of the counts to their end.

ghost use Rattle.std.specs.Prelude.{IfOk};
ghost use Rattle.hx_limits.specs.Settings.{AreSettings};
ghost use Rattle.hx_pool.specs.Searches.{IsSearchEnd};

use crate::benches::Bench;
use crate::crews::Crew;
use crate::ends::foremost;
use crate::errands::Errand;
use crate::hints::hint_words;
use crate::parts::Parts;
use hx_board::Memory;
use hx_book::Book;
use hx_count::{Counts, Hints, Totals};
use hx_io::Gate;
use hx_limits::{RanOut, Settings};
use hx_ordering::{LOSS_WORDS, Replies};
use hx_share::Shared;
use hx_zones::{Zones, zone_blocks};
use std::alloc::Global;
use std::sync::Wait;
use std::thread::Threads;

/// The book and the sums of the counts after a search, and the end that counts.
#[derive(Drop)]
pub struct Searched<B, F> {
    pub book: B,
    pub totals: Totals,
    pub end: Result<F, RanOut>,
}

/// Lets all workers run the errand, on positions with at most so many empty cells, with a table of zones of their own.
/// What a worker found counts before all else; then want of memory, of a slot, and of a unit last.
///
/// It may wait for a worker.
pub fn run_all<E: Errand + Sync, G: Gate + Sync, R: Threads + Wait + Sync>(
    rt: &R,
    alloc: Global,
    errand: &E,
    empties: u32,
    settings: &Settings,
    gate: &G,
) -> Result<Searched<Book, E::Found>, Memory>
    requires { AreSettings settings.now }
    ensures { IfOk result
        (λ searched. IsSearchEnd (E.proved errand.now) (E.tried errand.now) settings.now
        searched.book searched.totals.granted searched.end) }
{
    let zones = Zones::with_blocks(alloc, zone_blocks(settings.budget, empties))?;
    run_with_zones(rt, alloc, errand, &zones, empties, settings, gate)
}

/// As `run_all`, with a table of zones that the caller keeps. It may hold what earlier searches on boards of the same
/// size left there.
pub fn run_with_zones<E: Errand + Sync, G: Gate + Sync, R: Threads + Wait + Sync>(
    rt: &R,
    alloc: Global,
    errand: &E,
    zones: &Zones,
    empties: u32,
    settings: &Settings,
    gate: &G,
) -> Result<Searched<Book, E::Found>, Memory>
    requires { AreSettings settings.now }
    ensures { IfOk result
        (λ searched. IsSearchEnd (E.proved errand.now) (E.tried errand.now) settings.now
        searched.book searched.totals.granted searched.end) }
{
    let workers = settings.workers;
    let words = hint_words(settings.budget, empties);
    let hints = Hints::with_words(alloc, words)?;
    let replies = Replies::new(alloc)?;
    let room = Parts::with_room(alloc, workers)?;
    let (shared, books) = Shared::start(alloc, settings.slots, workers)?;
    let (counts, count_seats) = Counts::start(alloc, settings.budget, LOSS_WORDS, workers)?;
    let bench = Bench {
        shared: &shared,
        counts: &counts,
        hints: &hints,
        replies: &replies,
        zones,
    };
    let mut places = bench.deal(alloc, books, count_seats)?;
    let crew = Crew {
        errand,
        bench: &bench,
    };
    crew.work_all(rt, alloc, gate, &mut places);
    let parts = crew.take_apart(places, room);
    let end = foremost(parts.ends);
    let book = shared.close(parts.books);
    let totals = counts.close(parts.counts);
    book.keeps();
    Ok(Searched { book, totals, end })
}
