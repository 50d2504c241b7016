//! What the tests make: what fill-in gives, sets of links, and steps that are made more than once.

ghost use Rattle.std.specs.Prelude.{IfOk};
ghost use Rattle.hx_fill.specs.Fills.{AreDeadOrPairs};

use hx_board::{Colour, Position, Vertex};
use hx_fill::{Filled, fill_in};
use hx_link::{Parts, Step};
use hx_linkset::LinkSet;
use smallvec::SmallVec;
use std::alloc::{AllocError, Global};
use std::test::Fail;

pub(crate) fn filled_in(alloc: Global, position: &Position) -> Result<Filled, Fail>
    ensures { IfOk result (λ filled. AreDeadOrPairs filled.steps.items) }
{
    match fill_in(alloc, position) {
        Ok(filled) => Ok(filled),
        Err(_) => Err("memory".into()),
    }
}

/// A set of a player's with no link yet.
pub(crate) fn new_set(alloc: Global, position: &Position, player: Colour) -> Result<LinkSet, Fail> {
    match LinkSet::new(alloc, position, player) {
        Ok(set) => Ok(set),
        Err(_) => Err("memory".into()),
    }
}

/// What a step is made of, to make it more than once.
#[derive(Clone, Copy)]
pub(crate) enum Plan {
    Base(Vertex, Vertex),
    Cell(u32, u32),
    Or(u32, u32),
}

pub(crate) fn step_of(alloc: Global, plan: Plan) -> Result<Step, AllocError> {
    match plan {
        Plan::Base(a, b) => Ok(Step::Base { a, b }),
        Plan::Cell(left, right) => Ok(Step::AndCell { left, right }),
        Plan::Or(left, right) => {
            let places = SmallVec::from_slice(alloc, &[left, right])?;
            let parts = Parts::new(places);
            Ok(Step::Or { parts })
        }
    }
}
