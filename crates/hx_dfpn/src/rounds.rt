//! The search at a position, on sets of its own: round after round, until the position is proved or something is
//! wanting.
//!
//! At a visit further down it is enough that a position is known by another one that serves it. At the search's own
//! position alone what is known is settled of the position itself, and whoever stores answers to all moves settles each
//! of them. That takes fewer slots than a node for each position, since proofs are fewer.

ghost use Rattle.std.specs.Prelude.{◌≡◌, ◌+◌, ◌<◌, IfOk, IfErr};
ghost use Rattle.hx_count.specs.declared.events.TheConstants.{MOST_HELD};
ghost use Rattle.hx_count.specs.Machine.{held_in_all};
ghost use Rattle.hx_count.specs.Seats.{own as own_account};
ghost use Rattle.hx_count.specs.Seats.{KeepsSeat};
ghost use Rattle.hx_known.specs.Views.{Goes, IfProved};
ghost use Rattle.hx_limits.specs.Causes.{IsStopped};
ghost use Rattle.hx_dfpn.specs.Searches.{Keeps, MayHold, Stops};

use crate::searches::Search;
use crate::ways::Way;
use crate::workers::{Worker, ask};
use hx_board::{CELLS, Colour, Position};
use hx_count::CountSeat;
use hx_io::Gate;
use hx_known::{Known, Knows};
use hx_limits::RanOut;
use hx_linkset::LinkSet;
use hx_ordering::{LOSS_WORDS, Start};
use hx_pn::{INF, Numbers};
use hx_reach::Workspace;
use hx_turn::Orientations;
use std::sync::Wait;

/// No limit.
const NO_LIMIT: Numbers = Numbers {
    phi: INF,
    delta: INF,
};

/// A board has no more cells, so no more moves are made.
const DEPTH: u32 = CELLS as u32;

impl<K: Knows, G: Gate, R: Wait> Search<'_, K, G, R, Workspace, LinkSet> {
    /// A round with the unit that was granted, and the next unit. Nothing where that was granted too.
    fn round(&mut self, start: &Start) -> Result<Known, RanOut>
        requires { MayHold self.old DEPTH }
        ensures keeps { Keeps K.view self.old self.new }
        ensures settled { IfOk result
            (IfProved (K.settled self.new.known.now start.now.here start.now.to_move)) }
        ensures stopped { IfErr result (Stops K.view self.new) }
    {
        let _outcome = self.visit_granted(start, DEPTH)?;
        let (rt, alloc) = (self.worker.rt, self.worker.alloc);
        match self
            .known
            .settle(rt, alloc, start.here.position(), start.to_move)?
        {
            Known::Proved => Ok(Known::Proved),
            Known::Nothing => {
                ask(self.worker, self.seat)?;
                Ok(Known::Nothing)
            }
        }
    }

    /// Round after round.
    fn rounds(&mut self, start: &Start) -> Result<(), RanOut>
        requires { MayHold self.old DEPTH }
        ensures keeps { Keeps K.view self.old self.new }
        ensures settled { IfOk result (λ _.
            K.settled self.new.known.now start.now.here start.now.to_move) }
        ensures stopped { IfErr result (Stops K.view self.new) }
    {
        for _ in self.worker.rt.forever() {
            if let Known::Proved = self.round(start)? {
                return Ok(());
            }
        }
        unreachable!()
    }
}

/// Searches the position until it is settled who wins it, or a unit, a slot or memory is wanting. A unit was granted.
pub fn search_position<'a, K: Knows, G: Gate, R: Wait>(
    worker: &'a Worker<'a, G, R>,
    known: &'a mut K,
    seat: &'a mut CountSeat,
    position: &Position,
    to_move: Colour,
) -> Result<(), RanOut>
    requires seat { seat.old.made ≡ worker.now.counts.now }
    requires words { worker.now.counts.now.limits.words ≡ LOSS_WORDS }
    requires room { held_in_all (own_account seat.old) + DEPTH < MOST_HELD }
    ensures goes { Goes (K.view known.old) (K.view known.new) }
    ensures seat { KeepsSeat seat.old seat.new }
    ensures settled { IfOk result (λ _. K.settled known.new position.now to_move) }
    ensures stopped { IfErr result (IsStopped (K.view known.new).sight seat.new) }
{
    let alloc = worker.alloc;
    let workspace = Workspace::new(alloc)?;
    let own = LinkSet::new(alloc, position, to_move)?;
    let others = LinkSet::new(alloc, position, to_move.other())?;
    let start = Start {
        here: Orientations::of(position),
        to_move,
        moved: None,
        limit: NO_LIMIT,
    };
    let mut search = Search {
        worker,
        known,
        seat,
        workspace,
        own,
        others,
        way: Way::new(),
    };
    search.rounds(&start)
}
