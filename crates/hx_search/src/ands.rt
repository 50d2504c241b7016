//! The And rule, for each link with each earlier one that it meets.
//!
//! Two links give nothing unless they are Full and share one end. So a link is tried only with the Full links that lead
//! from one of its own ends to some vertex, which stand in chains; and only with earlier ones, since a later link will
//! be tried with this one when it is looked at.

ghost use Rattle.std.specs.Prelude.{◌≡◌, ℕ, ◌<◌, length, IfOk};
ghost use Rattle.hx_reach.specs.Growth.{IsGrown};
ghost use Rattle.hx_search.specs.Progress.{AreTried, and_at, IsChainSettled, IsEndSettled, IsPairSettled, AreRowsSettled};

use crate::tries::{Tried, settle};
use hx_board::{Memory, VERTICES, Vertex};
use hx_link::{Kind, Step};
use hx_linkset::LinkSet;

/// The And over an own vertex, or over an empty cell.
fn and_of(own: bool, left: u32, right: u32) -> Step
    ensures { result ≡ and_at own left right }
{
    if own {
        Step::AndStone { left, right }
    } else {
        Step::AndCell { left, right }
    }
}

/// Tries the And over one end of a link with each earlier Full link from there to a vertex.
fn settle_chain(
    set: &mut LinkSet,
    own: bool,
    end: &Vertex,
    to: &Vertex,
    right: u32,
) -> Result<Tried, Memory>
    requires { right < length set.old.present.links }
    ensures grown { IsGrown set.old set.new }
    ensures tried { IfOk result (AreTried set.new
        (IsChainSettled set.new own end.now to.now right right)) }
{
    let mut next = set.first_of(Kind::Full, *end, *to);
    loop {
        let Some(left) = next else {
            return Ok(Tried::Settled);
        };
        if right <= left {
            return Ok(Tried::Settled);
        }
        match settle(set, and_of(own, left, right)) {
            Ok(Tried::Settled) => {}
            Ok(Tried::Stopped) => return Ok(Tried::Stopped),
            Err(Memory) => return Err(Memory),
        }
        next = set.next_of(left);
    }
}

/// Tries the Ands over one end of a link with all earlier Full links from there.
fn settle_end(set: &mut LinkSet, end: &Vertex, right: u32) -> Result<Tried, Memory>
    requires { right < length set.old.present.links }
    ensures grown { IsGrown set.old set.new }
    ensures tried { IfOk result (AreTried set.new (IsEndSettled set.new end.now right)) }
{
    let size = set.position().size();
    let own = set.position().owns(set.colour(), end);
    for code in 0..VERTICES as u8 {
        let Some(to) = size.vertex(code) else {
            continue;
        };
        match settle_chain(set, own, end, &to, right) {
            Ok(Tried::Settled) => {}
            Ok(Tried::Stopped) => return Ok(Tried::Stopped),
            Err(Memory) => return Err(Memory),
        }
    }
    Ok(Tried::Settled)
}

/// Tries the Ands of a link with all earlier ones.
fn settle_row(set: &mut LinkSet, right: u32) -> Result<Tried, Memory>
    requires { right < length set.old.present.links }
    ensures grown { IsGrown set.old set.new }
    ensures tried { IfOk result (AreTried set.new
        ((left : ℕ) → left < right → IsPairSettled set.new left right)) }
{
    let Some(link) = set.link(right) else {
        return Ok(Tried::Settled);
    };
    if link.kind != Kind::Full {
        return Ok(Tried::Settled);
    }
    match settle_end(set, &link.a, right) {
        Ok(Tried::Settled) => {}
        Ok(Tried::Stopped) => return Ok(Tried::Stopped),
        Err(Memory) => return Err(Memory),
    }
    match settle_end(set, &link.b, right) {
        Ok(Tried::Settled) => Ok(Tried::Settled),
        Ok(Tried::Stopped) => Ok(Tried::Stopped),
        Err(Memory) => Err(Memory),
    }
}

/// Tries the Ands of each link from one on with all earlier ones, of the links that are added here too.
pub(crate) fn settle_ands(set: &mut LinkSet, from: u32) -> Result<Tried, Memory>
    requires { AreRowsSettled set.old from }
    ensures grown { IsGrown set.old set.new }
    ensures tried { IfOk result (AreTried set.new
        (AreRowsSettled set.new (length set.new.present.links))) }
{
    let mut right = from;
    loop {
        // no set holds more links than this call tells, so the loop ends
        set.keeps();
        let count = set.count();
        if count <= right {
            return Ok(Tried::Settled);
        }
        match settle_row(set, right) {
            Ok(Tried::Settled) => {}
            Ok(Tried::Stopped) => return Ok(Tried::Stopped),
            Err(Memory) => return Err(Memory),
        }
        right += 1;
    }
}
