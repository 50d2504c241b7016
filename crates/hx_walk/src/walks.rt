//! What a worker walks with, and the walk at a search's own position.

ghost use Rattle.std.specs.Prelude.{◌≡◌, ◌+◌, ◌<◌, IfOk, IfErr};
ghost use Rattle.hx_count.specs.declared.events.TheConstants.{MOST_HELD};
ghost use Rattle.hx_count.specs.Machine.{held_in_all};
ghost use Rattle.hx_count.specs.Seats.{own, KeepsSeat};
ghost use Rattle.hx_known.specs.Views.{Goes};
ghost use Rattle.hx_limits.specs.Causes.{IsStopped};

use hx_board::{CELLS, Colour, Position};
use hx_count::CountSeat;
use hx_dfpn::{Way, Worker, ask, search_position};
use hx_io::Gate;
use hx_known::{Known, Knows};
use hx_limits::RanOut;
use hx_linkset::LinkSet;
use hx_ordering::{LOSS_WORDS, Start};
use hx_pn::{INF, Numbers};
use hx_reach::Workspace;
use hx_turn::Orientations;
use hx_zones::Zones;
use std::sync::Wait;

/// No limit: a walk has no numbers.
pub(crate) const NO_LIMIT: Numbers = Numbers {
    phi: INF,
    delta: INF,
};

/// A board has no more cells, so no more moves are made.
const DEPTH: u32 = CELLS as u32;

/// A worker with zones, whoever makes proofs, its seat, a workspace, and the set of links that it walks with.
pub(crate) struct Walk<'a, K, G, R, W, L> {
    pub(crate) worker: &'a Worker<'a, G, R>,

    /// Who is asked what is known, and told what was found.
    pub(crate) known: &'a mut K,
    pub(crate) seat: &'a mut CountSeat,
    pub(crate) zones: &'a Zones,
    pub(crate) workspace: W,

    /// The player who wins at the search's own position, and so at all that the tree needs.
    pub(crate) winner: Colour,

    /// The winner's links.
    pub(crate) set: L,

    /// The way down to the visit at hand.
    pub(crate) way: Way,
}

// It says what is left behind the borrows.
impl<'a, K, G, R, W: Drop, L: Drop> Drop for Walk<'a, K, G, R, W, L> {
    fn drop(self)
        ensures known { self.exit.1.0.now ≡ self.entry.known.now }
        ensures seat { self.exit.1.1.0.now ≡ self.entry.seat.now }
    {
        let Self {
            worker: _,
            known: _,
            seat: _,
            zones: _,
            workspace: _,
            winner: _,
            set: _,
            way: _,
        } = self;
    }
}

/// The player who wins the position by a zone. Where none says so it is the player to move.
fn winner_of(zones: &Zones, position: &Position, to_move: Colour) -> Colour {
    let other = to_move.other();
    if zones.won_by(position, to_move, to_move).is_none()
        && zones.won_by(position, to_move, other).is_some()
    {
        other
    } else {
        to_move
    }
}

/// The walk at a position, with a set of its own. A unit was granted.
fn walk_at<'a, K: Knows, G: Gate, R: Wait>(
    worker: &'a Worker<'a, G, R>,
    zones: &'a Zones,
    known: &'a mut K,
    seat: &'a mut CountSeat,
    position: &Position,
    to_move: Colour,
) -> Result<Known, RanOut>
    requires seat { seat.old.made ≡ worker.now.counts.now }
    requires words { worker.now.counts.now.limits.words ≡ LOSS_WORDS }
    requires room { held_in_all (own seat.old) + DEPTH + CELLS < MOST_HELD }
    ensures goes { Goes (K.view known.old) (K.view known.new) }
    ensures seat { KeepsSeat seat.old seat.new }
    ensures stopped { IfErr result (IsStopped (K.view known.new).sight seat.new) }
{
    let winner = winner_of(zones, position, to_move);
    let workspace = Workspace::new(worker.alloc)?;
    let set = LinkSet::new(worker.alloc, position, winner)?;
    let start = Start {
        here: Orientations::of(position),
        to_move,
        moved: None,
        limit: NO_LIMIT,
    };
    let mut walking = Walk {
        worker,
        known,
        seat,
        zones,
        workspace,
        winner,
        set,
        way: Way::new(),
    };
    walking.visit_granted(&start, DEPTH)
}

/// Makes the proof of a position that zones claim, or a unit, a slot or memory is wanting. A unit was granted. Where
/// the walk does not come to it, the position is searched as it would be without zones.
pub fn walk_position<'a, K: Knows, G: Gate, R: Wait>(
    worker: &'a Worker<'a, G, R>,
    zones: &'a Zones,
    known: &'a mut K,
    seat: &'a mut CountSeat,
    position: &Position,
    to_move: Colour,
) -> Result<(), RanOut>
    requires seat { seat.old.made ≡ worker.now.counts.now }
    requires words { worker.now.counts.now.limits.words ≡ LOSS_WORDS }
    requires room { held_in_all (own seat.old) + DEPTH + CELLS < MOST_HELD }
    ensures goes { Goes (K.view known.old) (K.view known.new) }
    ensures seat { KeepsSeat seat.old seat.new }
    ensures settled { IfOk result (λ _. K.settled known.new position.now to_move) }
    ensures stopped { IfErr result (IsStopped (K.view known.new).sight seat.new) }
{
    // The worker and the zones are lent again, for as long as the walk goes.
    let _walked = walk_at(&*worker, &*zones, known, seat, position, to_move)?;
    match known.settle(worker.rt, worker.alloc, position, to_move)? {
        Known::Proved => Ok(()),
        Known::Nothing => {
            ask(worker, seat)?;
            search_position(worker, known, seat, position, to_move)
        }
    }
}
