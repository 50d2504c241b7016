//! A search by one worker over a plain book, in the caller's thread. `run_all` of hx_pool needs a system that makes
//! threads and a gate that threads may share; who asks for a plain tree need have neither.

ghost use Rattle.std.specs.Prelude.{◌≡◌, ◌<◌, IfOk};
ghost use Rattle.hx_board.specs.Graph.{HasNoChain};
ghost use Rattle.hx_count.specs.Machine.{HasNothing};
ghost use Rattle.hx_count.specs.Seats.{own};
ghost use Rattle.hx_limits.specs.Settings.{AreSettings};
ghost use Rattle.hx_worker.specs.Ends.{IsEnded, EndsSpent};
ghost use Rattle.hx_worker.specs.Sets.{AreOn};
ghost use Rattle.hx_solve.specs.Searches.{IsSearchedAlone, sight_of};

use hx_board::{Colour, Memory, Position};
use hx_book::PlainBook;
use hx_count::{CountSeat, Counts, Hints};
use hx_io::Gate;
use hx_limits::Settings;
use hx_ordering::{LOSS_WORDS, Replies};
use hx_pool::{Searched, hint_words};
use hx_tree::Found;
use hx_worker::{Ended, Job, new_sets, work};
use hx_zones::Zones;
use std::alloc::Global;
use std::sync::Wait;

/// The number of the only worker.
const FIRST: u32 = 0;

/// What the worker gives back.
#[derive(Drop)]
struct GivenBack {
    book: PlainBook,
    seat: CountSeat,
    ended: Ended,
}

/// Lets one worker search, whatever number of workers the settings have.
pub(crate) fn search_alone<G: Gate, R: Wait>(
    rt: &R,
    alloc: Global,
    position: &Position,
    to_move: Colour,
    settings: &Settings,
    gate: &G,
) -> Result<Searched<PlainBook, Found>, Memory>
    requires { AreSettings settings.now }
    ensures { IfOk result (IsSearchedAlone position.now to_move settings.now) }
{
    let words = hint_words(settings.budget, position.empty_count());
    let hints = Hints::with_words(alloc, words)?;
    let replies = Replies::new(alloc)?;
    // A plain search has no zones.
    let zones = Zones::with_blocks(alloc, 0)?;
    let book = PlainBook::with_slots(alloc, settings.slots)?;
    let (counts, mut seats) = Counts::start(alloc, settings.budget, LOSS_WORDS, 1)?;
    let Some(seat) = seats.pop() else {
        unreachable!()
    };
    let (black, white) = new_sets(alloc, position)?;
    let job = Job {
        worker: FIRST,
        position: *position,
        to_move,
        proofs: book,
        counts: &counts,
        seat,
        hints: &hints,
        replies: &replies,
        zones: &zones,
        black,
        white,
    };
    let GivenBack { book, seat, ended } = work_off(rt, job, gate);
    seats.push_reserved(seat);
    let totals = counts.close(seats);
    book.keeps();
    Ok(Searched {
        book,
        totals,
        end: ended.found(),
    })
}

/// The work of the worker on its job. It is a call of its own, so that afterwards the counts are no longer lent and can
/// be closed.
fn work_off<G: Gate, R: Wait>(rt: &R, job: Job<'_, PlainBook>, gate: &G) -> GivenBack
    requires made { job.seat.made ≡ job.counts.now }
    requires words { job.counts.now.limits.words ≡ LOSS_WORDS }
    requires nothing { HasNothing (own job.seat) }
    requires sets { AreOn job.position job.black job.white }
    ensures slots { result.book.slots ≡ job.entry.proofs.slots }
    ensures made { result.seat.made ≡ job.entry.counts.now }
    ensures ended { IsEnded (sight_of result.book) result.seat job.entry.position job.entry.to_move
        result.ended }
    ensures no_chain { EndsSpent result.ended → 0 < (own result.seat).granted
        → HasNoChain job.entry.position }
{
    let mut job = job;
    let ended = work(rt, &mut job, gate);
    give_back(job, ended)
}

/// The book and the seat of a job that has ended come back.
fn give_back(job: Job<'_, PlainBook>, ended: Ended) -> GivenBack
    ensures book { result.book ≡ job.entry.proofs }
    ensures seat { result.seat ≡ job.entry.seat }
    ensures ended { result.ended ≡ ended }
{
    let Job { proofs, seat, .. } = job;
    GivenBack {
        book: proofs,
        seat,
        ended,
    }
}
