//! Links that answer moves of the opponent's, found one move ahead.
//!
//! A set has the links that are of most use where it stands, and for each pair of ends no more than so many. So where a
//! move leaves no link whole that decides, one may still be found once the opponent's stone is on the set. The steps by
//! which it is found give it without that stone too, and then the move is answered as by any other link of the set, and
//! needs no node of its own.

ghost use Rattle.std.specs.Prelude.{IfErr};
ghost use Rattle.hx_dfpn.specs.Keeps.{StandsAgain};
ghost use Rattle.hx_walk.specs.Walks.{Keeps, Stops};

use crate::claims::situation_at;
use crate::walks::{NO_LIMIT, Walk};
use hx_board::{CELLS, Cell, Mask, Memory};
use hx_dfpn::{put, take_back};
use hx_fill::{Filled, must_without_lines};
use hx_io::Gate;
use hx_known::Knows;
use hx_limits::RanOut;
use hx_link::{Parts, Step, Steps};
use hx_linkset::{Added, LinkSet};
use hx_ordering::{Situation, Start, after};
use hx_reach::{Reached, Workspace, reach_with};
use hx_zones::widened;
use smallvec::SmallVec;
use std::alloc::Global;
use std::sync::Wait;

/// The index in a set of the link that a step of a list gave. None has the index of a link that was not added.
fn index_of(indices: &[u32], place: u32) -> u32 {
    match indices.get(place as usize) {
        Some(index) => *index,
        None => u32::MAX,
    }
}

/// The step of a list, by the indices that its links have in a set.
fn step_in_set(alloc: Global, step: &Step, indices: &[u32]) -> Result<Step, Memory> {
    match step {
        Step::Base { a, b } => Ok(Step::Base { a: *a, b: *b }),
        Step::AndStone { left, right } => Ok(Step::AndStone {
            left: index_of(indices, *left),
            right: index_of(indices, *right),
        }),
        Step::AndCell { left, right } => Ok(Step::AndCell {
            left: index_of(indices, *left),
            right: index_of(indices, *right),
        }),
        Step::Or { parts } => Ok(Step::Or {
            parts: parts_in_set(alloc, parts, indices)?,
        }),
    }
}

/// The parts of an Or of a list, by the indices that they have in a set.
fn parts_in_set(alloc: Global, parts: &Parts, indices: &[u32]) -> Result<Parts, Memory> {
    let mut items = SmallVec::<u32, 8>::new(alloc);
    for part in parts.items() {
        items.push(index_of(indices, *part)).map_err(|_| Memory)?;
    }
    Ok(Parts::new(items))
}

/// Adds the links that these steps give, up to the first that the set has no room for or that is none there.
fn add_steps(set: &mut LinkSet, steps: &[Step]) -> Result<(), Memory>
    ensures stands { StandsAgain set.old set.new }
{
    let alloc = set.allocator();
    let mut indices = Vec::new(alloc);
    for step in steps {
        let step = step_in_set(alloc, step, indices.as_slice())?;
        match set.add(step)? {
            Added::New(index) | Added::Covered(index) => {
                indices.push(index).map_err(|_| Memory)?;
            }
            Added::Refused | Added::Limit => return Ok(()),
        }
    }
    Ok(())
}

impl<K: Knows, G: Gate, R: Wait> Walk<'_, K, G, R, Workspace, LinkSet> {
    /// The steps of a link of the set that decides it for the winner, who is to move.
    fn steps_of_win(&mut self) -> Result<Option<Steps>, Memory>
        ensures keeps { Keeps K.view self.old self.new }
    {
        match reach_with(&mut self.workspace, &mut self.set, self.winner)? {
            Reached::Decided(index) => Ok(Some(self.set.derivation(&[index])?.steps)),
            Reached::Open => Ok(None),
        }
    }

    /// The position after a move of the opponent's, as the zone claims it by which the winner wins there.
    fn claimed_after(
        &self,
        situation: &Situation,
        cell: Cell,
    ) -> Result<Option<Situation>, Memory> {
        let (alloc, winner) = (self.worker.alloc, self.winner);
        let Some(here) = after(&situation.filled, situation.to_move, cell) else {
            return Ok(None);
        };
        let Some(zone) = self.zones.won_by(here.position(), winner, winner) else {
            return Ok(None);
        };
        let Some(wide) = widened(here.position(), winner, zone.free) else {
            return Ok(None);
        };
        let start = Start {
            here,
            to_move: winner,
            moved: Some(cell),
            limit: NO_LIMIT,
        };
        let unfilled = Filled::none(alloc, &wide);
        Ok(Some(situation_at(alloc, &start, &wide, winner, &unfilled)?))
    }

    /// Adds a link that leaves a move of the opponent's no use, where one is found after it.
    fn add_threat(&mut self, situation: &Situation, cell: Cell) -> Result<(), RanOut>
        ensures keeps { Keeps K.view self.old self.new }
        ensures stopped { IfErr result (Stops K.view self.new) }
    {
        let Some(claimed) = self.claimed_after(situation, cell)? else {
            return Ok(());
        };
        let before = put(&mut self.set, &claimed, self.winner)?;
        let found = self.steps_of_win();
        take_back(&mut self.set, before);
        if let Some(steps) = found? {
            add_steps(&mut self.set, steps.items())?;
        }
        Ok(())
    }

    /// Adds links that leave moves of the opponent's no use, which no link does yet.
    pub(crate) fn add_threats(&mut self, situation: &Situation) -> Result<(), RanOut>
        ensures keeps { Keeps K.view self.old self.new }
        ensures stopped { IfErr result (Stops K.view self.new) }
    {
        let size = situation.filled.position().size();
        let mut tried = Mask::empty();
        for _ in 0..CELLS {
            let must = must_without_lines(&self.set)?;
            let Some(cell) = must.cells.minus(tried).least(size) else {
                break;
            };
            tried = tried.with(cell);
            self.add_threat(situation, cell)?;
        }
        Ok(())
    }
}
