//! The search at a job's position, by one of the two forms in which proofs are made.

ghost use Rattle.std.specs.Prelude.{◌≡◌, IfOk, IfErr};
ghost use Rattle.hx_book.specs.Sights.{Grows};
ghost use Rattle.hx_count.specs.Machine.{held_in_all};
ghost use Rattle.hx_count.specs.Seats.{own, KeepsSeat};
ghost use Rattle.hx_known.specs.Views.{Goes};
ghost use Rattle.hx_tree.specs.Entries.{IsFirstFound};
ghost use Rattle.hx_limits.specs.Causes.{IsStopped};

use crate::listed::entry_of;
use crate::plain::PlainProofs;
use crate::wide::WideProofs;
use hx_board::{Colour, Position};
use hx_book::Proofs;
use hx_count::CountSeat;
use hx_dfpn::{Worker, ask, search_position};
use hx_io::Gate;
use hx_known::Knows;
use hx_limits::RanOut;
use hx_ordering::LOSS_WORDS;
use hx_sketch::Sketch;
use hx_tree::Found;
use hx_walk::walk_position;
use hx_zones::Zones;
use std::sync::Wait;

/// Finds out by zones who wins, and then makes the proof that they claim.
fn in_two_walks<K: Knows, G: Gate, R: Wait>(
    worker: &Worker<'_, G, R>,
    known: &mut K,
    zones: &Zones,
    seat: &mut CountSeat,
    position: &Position,
    to_move: Colour,
) -> Result<(), RanOut>
    requires seat { seat.old.made ≡ worker.now.counts.now }
    requires words { worker.now.counts.now.limits.words ≡ LOSS_WORDS }
    requires nothing_held { held_in_all (own seat.old) ≡ 0 }
    ensures goes { Goes (K.view known.old) (K.view known.new) }
    ensures seat { KeepsSeat seat.old seat.new }
    ensures settled { IfOk result (λ _. K.settled known.new position.now to_move) }
    ensures stopped { IfErr result (IsStopped (K.view known.new).sight seat.new) }
{
    search_position(
        &*worker,
        &mut Sketch::new(known, zones),
        seat,
        position,
        to_move,
    )?;
    ask(worker, seat)?;
    walk_position(&*worker, zones, known, seat, position, to_move)
}

/// Searches the position until it is proved, or a unit, a slot or memory is wanting. A unit was granted.
pub(crate) fn search_by<P: Proofs, G: Gate, R: Wait>(
    worker: &Worker<'_, G, R>,
    proofs: &mut P,
    zones: &Zones,
    seat: &mut CountSeat,
    position: &Position,
    to_move: Colour,
) -> Result<Found, RanOut>
    requires seat { seat.old.made ≡ worker.now.counts.now }
    requires words { worker.now.counts.now.limits.words ≡ LOSS_WORDS }
    requires nothing_held { held_in_all (own seat.old) ≡ 0 }
    ensures grew { Grows (P.sight proofs.old) (P.sight proofs.new) }
    ensures seat { KeepsSeat seat.old seat.new }
    ensures found { IfOk result (IsFirstFound (P.sight proofs.new).list position.now to_move) }
    ensures stopped { IfErr result (IsStopped (P.sight proofs.new) seat.new) }
{
    // The worker is lent again, for as long as the form lives.
    if proofs.plain() {
        search_position(
            &*worker,
            &mut PlainProofs::new(proofs),
            seat,
            position,
            to_move,
        )?;
        return Ok(entry_of(worker.rt, proofs, position, to_move));
    }
    in_two_walks(
        &*worker,
        &mut WideProofs::new(proofs),
        zones,
        seat,
        position,
        to_move,
    )?;
    Ok(entry_of(worker.rt, proofs, position, to_move))
}
