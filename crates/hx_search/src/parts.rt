//! The parts of an Or: of the live Semi links of two ends a few, of which no cell is in all carriers.
//!
//! A link is taken only where it lacks a cell that those before it share. So no more are taken than a carrier has cells
//! and one, and that is fewer than an Or can name; and what is shared in the end, all links of these ends share.

ghost use Rattle.std.specs.Prelude.{IfOk, MatchOption};
ghost use Rattle.hx_search.specs.Closed.{IsForked};
ghost use Rattle.hx_search.specs.Progress.{IsFork};

use hx_board::{Memory, Vertex};
use hx_link::{Kind, Parts};
use hx_linkset::LinkSet;
use smallvec::SmallVec;

/// Parts for an Or of two ends. None exactly where they are not forked.
pub(crate) fn parts_of(set: &LinkSet, a: &Vertex, b: &Vertex) -> Result<Option<Parts>, Memory>
    ensures { IfOk result (λ found.
        MatchOption found (IsForked set.now a.now b.now → ⊥) (IsFork set.now a.now b.now)) }
{
    let Some(first) = set.first_of(Kind::Semi, *a, *b) else {
        return Ok(None);
    };
    // an Or of live links alone gives a link whose carrier is on the board
    set.keeps();
    let mut shared = set.carrier(first);
    let mut parts = SmallVec::<u32, 8>::new(set.allocator());
    if parts.push(first).is_err() {
        return Err(Memory);
    }
    let mut last = first;
    loop {
        let done = shared.is_empty();
        if done {
            return Ok(Some(Parts::new(parts)));
        }
        let Some(next) = set.next_of(last) else {
            return Ok(None);
        };
        last = next;
        let carrier = set.carrier(next);
        let has_all = shared.minus(carrier).is_empty();
        if has_all {
            continue;
        }
        if parts.push(next).is_err() {
            return Err(Memory);
        }
        shared = shared.meet(carrier);
    }
}
