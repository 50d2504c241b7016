//! The Or rule, for any two vertices that no Full link joins yet.

ghost use Rattle.std.specs.Prelude.{◌≡◌, IfOk};
ghost use Rattle.hx_reach.specs.Growth.{IsGrown};
ghost use Rattle.hx_search.specs.Progress.{IsPassed, passed_by, IsJoinedWhereForked, AreForksOf, AreForksBelow};

use crate::parts::parts_of;
use hx_board::{Memory, VERTICES, Vertex};
use hx_link::{Kind, Step};
use hx_linkset::{Added, LinkSet};

/// What became of Ors that were tried.
#[derive(Clone, Copy)]
pub(crate) enum Passed {
    /// None was missing.
    Same,

    /// One or more were added.
    More,

    /// The set was full.
    Full,
}

/// Tries an Or of two vertices.
fn join(set: &mut LinkSet, a: &Vertex, b: &Vertex) -> Result<Passed, Memory>
    ensures grown { IsGrown set.old set.new }
    ensures passed { IfOk result (IsPassed set.old set.new
        (IsJoinedWhereForked set.new a.now b.now)) }
{
    let None = set.first_of(Kind::Full, *a, *b) else {
        return Ok(Passed::Same);
    };
    let parts = match parts_of(set, a, b) {
        Ok(Some(parts)) => parts,
        Ok(None) => return Ok(Passed::Same),
        Err(Memory) => return Err(Memory),
    };
    match set.add(Step::Or { parts }) {
        Ok(added) => Ok(passed_by(added)),
        Err(Memory) => Err(Memory),
    }
}

/// What became of the Or that the set answered this.
fn passed_by(added: Added) -> Passed
    ensures { result ≡ passed_by added }
{
    match added {
        Added::New(_) => Passed::More,
        Added::Covered(_) | Added::Refused => Passed::Same,
        Added::Limit => Passed::Full,
    }
}

/// Tries an Or of a vertex with each vertex from a number on.
fn join_from(set: &mut LinkSet, a: &Vertex, from: u8) -> Result<Passed, Memory>
    ensures grown { IsGrown set.old set.new }
    ensures passed { IfOk result (IsPassed set.old set.new
        (AreForksOf set.new a.now from VERTICES)) }
{
    let size = set.position().size();
    let mut more = false;
    for code in from..VERTICES as u8 {
        let Some(b) = size.vertex(code) else {
            continue;
        };
        match join(set, a, &b) {
            Ok(Passed::Same) => continue,
            Ok(Passed::More) => {}
            Ok(Passed::Full) => return Ok(Passed::Full),
            Err(Memory) => return Err(Memory),
        }
        more = true;
    }
    if more {
        return Ok(Passed::More);
    }
    Ok(Passed::Same)
}

/// Tries an Or of any two vertices.
pub(crate) fn join_all(set: &mut LinkSet) -> Result<Passed, Memory>
    ensures grown { IsGrown set.old set.new }
    ensures passed { IfOk result (IsPassed set.old set.new (AreForksBelow set.new VERTICES)) }
{
    let size = set.position().size();
    let mut more = false;
    for code in 0..VERTICES as u8 {
        let Some(a) = size.vertex(code) else {
            continue;
        };
        match join_from(set, &a, code + 1) {
            Ok(Passed::Same) => continue,
            Ok(Passed::More) => {}
            Ok(Passed::Full) => return Ok(Passed::Full),
            Err(Memory) => return Err(Memory),
        }
        more = true;
    }
    if more {
        return Ok(Passed::More);
    }
    Ok(Passed::Same)
}
