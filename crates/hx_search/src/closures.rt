//! How a set of links is closed: first with useful links, so that a set which gets full holds these; then with the
//! Bases, and with Ands and then Ors, again and again, until a pass over the Ors adds none. That the set is closed
//! rests on the second part alone.

ghost use Rattle.std.specs.Prelude.{IfOk};
ghost use Rattle.hx_linkset.specs.States.{IsRight};
ghost use Rattle.hx_reach.specs.Growth.{IsGrown};
ghost use Rattle.hx_search.specs.Closed.{IsClosed, IsAnswer};
ghost use Rattle.hx_search.specs.Progress.{AreTried};

use crate::ands::settle_ands;
use crate::bases::settle_bases;
use crate::ors::{Passed, join_all};
use crate::tries::Tried;
use hx_board::Memory;
use hx_linkset::{LinkSet, MOST_LINKS};
use hx_reach::add_all_useful;

/// How the closing of a set ended.
#[derive(Clone, Copy, PartialEq, Eq, Debug)]
pub enum Closure {
    /// Each Base and each And is covered, and ends that fork have a Full link.
    Closed,

    /// The set is not closed, but it holds so many links, and that is all that it can.
    Limit { links: u32 },
}

/// The set holds all the links that it can.
const LIMIT: Closure = Closure::Limit {
    links: MOST_LINKS as u32,
};

/// Adds links until the set is closed or there is no room. Whatever the answer, want of memory included, the links that
/// were live stay live at their indices, and position, player and plays are as before; each live link comes by a step
/// from live links before it. Closed says three things of the live links: two vertices that are joined have a Full link
/// on no cell; each And of two of them is covered by one; and where two vertices have two or more Semi links, of which
/// no cell is in all carriers, they have a Full link.
pub fn close(set: &mut LinkSet) -> Result<Closure, Memory>
    ensures grown { IsGrown set.old set.new }
    ensures answer { IfOk result (IsAnswer set.new) }
    ensures right { IsRight set.new.player set.new.present }
{
    let added = add_all(set);
    set.keeps();
    match added {
        Ok(Tried::Settled) => Ok(Closure::Closed),
        Ok(Tried::Stopped) => Ok(LIMIT),
        Err(Memory) => Err(Memory),
    }
}

/// Adds useful links, then the Bases, and then Ands and Ors, again and again.
fn add_all(set: &mut LinkSet) -> Result<Tried, Memory>
    ensures grown { IsGrown set.old set.new }
    ensures tried { IfOk result (AreTried set.new (IsClosed set.new)) }
{
    match add_all_useful(set) {
        Ok(()) => {}
        Err(Memory) => return Err(Memory),
    }
    match settle_bases(set) {
        Ok(Tried::Settled) => {}
        Ok(Tried::Stopped) => return Ok(Tried::Stopped),
        Err(Memory) => return Err(Memory),
    }
    let mut settled = 0;
    loop {
        match settle_ands(set, settled) {
            Ok(Tried::Settled) => {}
            Ok(Tried::Stopped) => return Ok(Tried::Stopped),
            Err(Memory) => return Err(Memory),
        }
        // The board is a position's, so each vertex has its code; and no set holds more links than this tells, so the
        // loop ends.
        set.keeps();
        settled = set.count();
        match join_all(set) {
            Ok(Passed::Same) => return Ok(Tried::Settled),
            Ok(Passed::More) => {}
            Ok(Passed::Full) => return Ok(Tried::Stopped),
            Err(Memory) => return Err(Memory),
        }
    }
}
