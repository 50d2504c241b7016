//! The work of one worker.

ghost use Rattle.std.specs.Prelude.{◌≡◌, ◌<◌};
ghost use Rattle.hx_count.specs.Machine.{held_in_all};
ghost use Rattle.hx_count.specs.Seats.{own};
ghost use Rattle.hx_book.specs.Sights.{Grows};
ghost use Rattle.hx_reach.specs.Growth.{IsGrown};
ghost use Rattle.hx_count.specs.Seats.{KeepsSeat};
ghost use Rattle.hx_worker.specs.Sets.{AreOn};
ghost use Rattle.hx_worker.specs.Ends.{IsEnded, IsTried, WasUnlisted, EndsSpent};

use crate::closing::close_and_end;
use crate::ended::Ended;
use crate::searches::search_by;
use hx_board::{Colour, Position};
use hx_book::Proofs;
use hx_count::{CountSeat, Counts, Hints};
use hx_dfpn::{Worker, ask};
use hx_io::Gate;
use hx_limits::RanOut;
use hx_linkset::LinkSet;
use hx_ordering::{LOSS_WORDS, Replies};
use hx_zones::Zones;
use std::sync::Wait;

/// What a worker works on, and with.
#[derive(Drop)]
pub struct Job<'a, P: Proofs> {
    /// The worker's number, which its gate is told.
    pub worker: u32,
    pub position: Position,
    pub to_move: Colour,

    /// Where proofs are looked for and stored.
    pub proofs: P,

    /// The units, and how many workers are below a move.
    pub counts: &'a Counts,
    pub seat: CountSeat,

    /// What workers leave for one another.
    pub hints: &'a Hints,
    pub replies: &'a Replies,
    pub zones: &'a Zones,

    /// The links of both players at the position.
    pub black: LinkSet,
    pub white: LinkSet,
}

/// Searches until the position of the job is proved, or a unit, a slot or memory is wanting.
///
/// The job's sets are closed at the job's position where its units are spent, and are never played on. Whatever the
/// answer, the seat holds what it held, the sets stand at the job's position, and links that were live in them are.
pub fn work<P: Proofs, G: Gate, R: Wait>(rt: &R, job: &mut Job<'_, P>, gate: &G) -> Ended
    requires seat { job.old.seat.made ≡ job.old.counts.now }
    requires words { job.old.counts.now.limits.words ≡ LOSS_WORDS }
    requires nothing_held { held_in_all (own job.old.seat) ≡ 0 }
    requires sets { AreOn job.old.position job.old.black job.old.white }
    ensures worker { job.new.worker ≡ job.old.worker }
    ensures position { job.new.position ≡ job.old.position }
    ensures to_move { job.new.to_move ≡ job.old.to_move }
    ensures counts { job.new.counts.now ≡ job.old.counts.now }
    ensures hints { job.new.hints.now ≡ job.old.hints.now }
    ensures replies { job.new.replies.now ≡ job.old.replies.now }
    ensures zones { job.new.zones.now ≡ job.old.zones.now }
    ensures grew { Grows (P.sight job.old.proofs) (P.sight job.new.proofs) }
    ensures seat { KeepsSeat job.old.seat job.new.seat }
    ensures black { IsGrown job.old.black job.new.black }
    ensures white { IsGrown job.old.white job.new.white }
    ensures ended { IsEnded (P.sight job.new.proofs) job.new.seat job.old.position job.old.to_move
        result }
    // A spent budget ends the work before the first visit, or after all was tried that can be tried at once.
    ensures tried { EndsSpent result → (own job.old.seat).granted < (own job.new.seat).granted
        → IsTried job.old.position job.old.to_move job.new.black job.new.white }
    ensures unlisted { EndsSpent result → (own job.old.seat).granted < (own job.new.seat).granted
        → WasUnlisted P.is_plain (P.sight job.old.proofs).list (P.sight job.new.proofs).list
        job.old.position job.old.to_move }
{
    let worker = Worker {
        number: job.worker,
        alloc: job.black.allocator(),
        rt,
        gate,
        counts: job.counts,
        hints: job.hints,
        replies: job.replies,
    };
    if let Err(spent) = ask(&worker, &mut job.seat) {
        return Ended::Spent(spent);
    }
    let ended = search_by(
        &worker,
        &mut job.proofs,
        job.zones,
        &mut job.seat,
        &job.position,
        job.to_move,
    );
    let spent = match ended {
        Ok(found) => return Ended::of(Ok(found)),
        Err(RanOut::Budget(spent)) => spent,
        Err(why) => return Ended::of(Err(why)),
    };
    Ended::of(close_and_end(
        rt,
        &mut job.proofs,
        &job.position,
        job.to_move,
        &mut job.black,
        &mut job.white,
        spent,
    ))
}
