//! Marks on places. A byte stands for each place, so that a search for the next mark reads many places at a time.

ghost use Rattle.std.specs.Prelude.{◌≡◌, ℕ, ◌<◌, ◌≤◌, length, IfOk, MatchOption, ◌⊎◌};
ghost use Rattle.hx_board.specs.Lists.{StandsIn};
ghost use Rattle.hx_linkset.specs.States.{Names};
ghost use Rattle.hx_linkset.specs.Marks.{IsMarked, AreUnmarked, MarksMore, IsLastMarkBelow, IsFirstMarkFrom};

use hx_board::Memory;
use hx_link::Step;
use memchr::{memchr, memrchr};
use std::alloc::Global;

/// The byte of a marked place.
const MARK: u8 = 1;

/// No mark on so many places.
pub(crate) fn no_marks(alloc: Global, count: usize) -> Result<Vec<u8>, Memory>
    ensures { IfOk result (λ marks. AreUnmarked count marks.items) }
{
    let Ok(marks) = vec![in alloc; 0; count] else {
        return Err(Memory);
    };
    Ok(marks)
}

/// Marks these places.
pub(crate) fn mark_all(marks: &mut Vec<u8>, places: &[u32])
    requires { (place : ℕ) → StandsIn places.now place → place < length marks.old.items }
    ensures { MarksMore (StandsIn places.now) marks.old.items marks.new.items }
{
    for place in places {
        marks[*place as usize] = MARK;
    }
}

/// Marks two places.
fn mark_both(marks: &mut Vec<u8>, left: u32, right: u32)
    requires left { left < length marks.old.items }
    requires right { right < length marks.old.items }
    ensures { MarksMore (λ (place : ℕ). (place ≡ left) ⊎ (place ≡ right))
        marks.old.items marks.new.items }
{
    marks[left as usize] = MARK;
    marks[right as usize] = MARK;
}

/// Marks what a step names.
pub(crate) fn mark_parts(marks: &mut Vec<u8>, step: &Step)
    requires { (place : ℕ) → Names step.now place → place < length marks.old.items }
    ensures { MarksMore (Names step.now) marks.old.items marks.new.items }
{
    match step {
        Step::Base { .. } => {}
        Step::AndStone { left, right } => mark_both(marks, *left, *right),
        Step::AndCell { left, right } => mark_both(marks, *left, *right),
        Step::Or { parts } => mark_all(marks, parts.items()),
    }
}

/// The last marked place below a bound.
pub(crate) fn last_below(marks: &[u8], bound: usize) -> Option<usize>
    requires { bound ≤ length marks.now }
    ensures { MatchOption result
        ((place : ℕ) → place < bound → IsMarked marks.now place → ⊥)
        (IsLastMarkBelow marks.now bound) }
{
    memrchr(MARK, &marks[..bound])
}

/// The first marked place from a bound on.
pub(crate) fn first_from(marks: &[u8], bound: usize) -> Option<usize>
    requires { bound ≤ length marks.now }
    ensures { MatchOption result
        ((place : ℕ) → bound ≤ place → IsMarked marks.now place → ⊥)
        (IsFirstMarkFrom marks.now bound) }
{
    let Some(further) = memchr(MARK, &marks[bound..]) else {
        return None;
    };
    Some(bound + further)
}
