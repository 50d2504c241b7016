//! The links that need no cell: those of any two vertices that are joined already.

ghost use Rattle.std.specs.Prelude.{◌≡◌, ◌<◌, IfOk};
ghost use Rattle.hx_reach.specs.Growth.{IsGrown};
ghost use Rattle.hx_search.specs.Progress.{AreTried, AreBasesOf, AreBasesBelow};

use crate::tries::{Tried, settle};
use hx_board::{Memory, VERTICES, Vertex};
use hx_link::Step;
use hx_linkset::LinkSet;

/// Tries the Base of a vertex with each vertex from a number on.
fn settle_bases_of(set: &mut LinkSet, a: &Vertex, from: u8) -> Result<Tried, Memory>
    ensures grown { IsGrown set.old set.new }
    ensures tried { IfOk result (AreTried set.new (AreBasesOf set.new a.now from VERTICES)) }
{
    let size = set.position().size();
    for code in from..VERTICES as u8 {
        let Some(b) = size.vertex(code) else {
            continue;
        };
        match settle(set, Step::Base { a: *a, b }) {
            Ok(Tried::Settled) => {}
            Ok(Tried::Stopped) => return Ok(Tried::Stopped),
            Err(Memory) => return Err(Memory),
        }
    }
    Ok(Tried::Settled)
}

/// Tries the Base of any two vertices.
pub(crate) fn settle_bases(set: &mut LinkSet) -> Result<Tried, Memory>
    ensures grown { IsGrown set.old set.new }
    ensures tried { IfOk result (AreTried set.new (AreBasesBelow set.new VERTICES)) }
{
    let size = set.position().size();
    for code in 0..VERTICES as u8 {
        let Some(a) = size.vertex(code) else {
            continue;
        };
        match settle_bases_of(set, &a, code + 1) {
            Ok(Tried::Settled) => {}
            Ok(Tried::Stopped) => return Ok(Tried::Stopped),
            Err(Memory) => return Err(Memory),
        }
    }
    Ok(Tried::Settled)
}
