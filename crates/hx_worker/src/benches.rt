//! A worker's job at the bench that all workers share.
//!
//! A worker may go from position to position: its seats stay in one job, which gets new sets of links for each. The
//! sets are made in its own thread, so that workers do not wait for one another's.

ghost use Rattle.std.specs.Prelude.{◌≡◌, ◌<◌, IfOk};
ghost use Rattle.hx_board.specs.Graph.{HasNoChain};
ghost use Rattle.hx_count.specs.Machine.{held_in_all};
ghost use Rattle.hx_count.specs.Seats.{own};
ghost use Rattle.hx_tree.specs.Entries.{Extends, IsFirstFound};
ghost use Rattle.hx_pool.specs.Ends.{EndsSpent};
ghost use Rattle.hx_pool.specs.Seats.{IsEndedBy};
ghost use Rattle.hx_share.specs.Readers.{sight_of};
ghost use Rattle.hx_worker.specs.Sets.{AreOn};

use crate::jobs::{Job, work};
use hx_board::{Colour, Memory, Position};
use hx_io::Gate;
use hx_limits::RanOut;
use hx_linkset::LinkSet;
use hx_ordering::LOSS_WORDS;
use hx_pool::{Bench, Done, Seats};
use hx_share::Desk;
use hx_tree::Found;
use std::alloc::Global;
use std::sync::Wait;

/// Sets of links of both players at a position, Black's first, with no link yet.
pub fn new_sets(alloc: Global, position: &Position) -> Result<(LinkSet, LinkSet), Memory>
    ensures { IfOk result (λ sets. AreOn position.now sets.0 sets.1) }
{
    let black = LinkSet::new(alloc, position, Colour::Black)?;
    let white = LinkSet::new(alloc, position, Colour::White)?;
    Ok((black, white))
}

/// The job of a worker with these seats, at a position of which these are the sets of links.
pub fn job_of<'a>(
    bench: &Bench<'a>,
    seats: Seats,
    position: &Position,
    to_move: Colour,
    sets: (LinkSet, LinkSet),
) -> Job<'a, Desk<'a>>
    requires book { seats.book.made ≡ bench.now.shared.now.made }
    ensures worker { result.worker ≡ seats.worker }
    ensures seat { result.seat ≡ seats.counts }
    ensures book { result.proofs.seat ≡ seats.book }
    ensures shared { result.proofs.shared.now ≡ bench.now.shared.now }
    ensures counts { result.counts.now ≡ bench.now.counts.now }
    ensures position { result.position ≡ position.now }
    ensures to_move { result.to_move ≡ to_move }
    ensures black { result.black ≡ sets.0 }
    ensures white { result.white ≡ sets.1 }
{
    let (black, white) = sets;
    Job {
        worker: seats.worker,
        position: *position,
        to_move,
        proofs: Desk {
            shared: bench.shared,
            seat: seats.book,
        },
        counts: bench.counts,
        seat: seats.counts,
        hints: bench.hints,
        replies: bench.replies,
        zones: bench.zones,
        black,
        white,
    }
}

/// The seats of a job come back, with this end.
pub fn done_of<F>(job: Job<'_, Desk<'_>>, end: Result<F, RanOut>) -> Done<F>
    ensures book { result.book ≡ job.entry.proofs.seat }
    ensures counts { result.counts ≡ job.entry.seat }
    ensures end { result.end ≡ end }
{
    let Job { proofs, seat, .. } = job;
    let Desk { seat: book, .. } = proofs;
    Done {
        book,
        counts: seat,
        end,
    }
}

/// The work of one worker on one position. Whatever the end, the seats come back with nothing held.
pub fn work_at<G: Gate, R: Wait>(
    rt: &R,
    alloc: Global,
    gate: &G,
    bench: &Bench<'_>,
    seats: Seats,
    position: &Position,
    to_move: Colour,
) -> Done<Found>
    requires words { bench.now.counts.now.limits.words ≡ LOSS_WORDS }
    requires book { seats.book.made ≡ bench.now.shared.now.made }
    requires counts { seats.counts.made ≡ bench.now.counts.now }
    requires nothing_held { held_in_all (own seats.counts) ≡ 0 }
    ensures book { result.book.made ≡ bench.now.shared.now.made }
    ensures counts { result.counts.made ≡ bench.now.counts.now }
    ensures nothing_held { held_in_all (own result.counts) ≡ 0 }
    ensures grew { Extends seats.book.seen result.book.seen }
    ensures ended { IsEndedBy (λ list. IsFirstFound list position.now to_move)
        (sight_of result.book) result.counts result.end }
    // Where units were granted in this call before one was refused, the position was looked at for a chain.
    ensures no_chain { EndsSpent result.end
        → (own seats.counts).granted < (own result.counts).granted → HasNoChain position.now }
{
    let Ok(sets) = new_sets(alloc, position) else {
        return Done {
            book: seats.book,
            counts: seats.counts,
            end: Err(RanOut::Memory),
        };
    };
    let mut job = job_of(bench, seats, position, to_move, sets);
    let ended = work(rt, &mut job, gate);
    done_of(job, ended.found())
}

impl Job<'_, Desk<'_>> {
    /// Goes on to another position, with new sets of links. Where memory runs out the job stays as it is.
    pub fn go_to(
        &mut self,
        alloc: Global,
        position: &Position,
        to_move: Colour,
    ) -> Result<(), Memory>
        ensures sets { IfOk result (λ _. AreOn position.now self.new.black self.new.white) }
        ensures position { IfOk result (λ _. self.new.position ≡ position.now) }
        ensures to_move { IfOk result (λ _. self.new.to_move ≡ to_move) }
        ensures proofs { self.new.proofs ≡ self.old.proofs }
        ensures seat { self.new.seat ≡ self.old.seat }
        ensures counts { self.new.counts.now ≡ self.old.counts.now }
    {
        let (black, white) = new_sets(alloc, position)?;
        self.position = *position;
        self.to_move = to_move;
        self.black = black;
        self.white = white;
        Ok(())
    }
}
