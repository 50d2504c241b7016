//! The winner's opponent is to move: each move is answered.

ghost use Rattle.std.specs.Prelude.{IfErr};
ghost use Rattle.hx_walk.specs.Walks.{Keeps, MayHold, Stops};

use crate::walks::Walk;
use hx_board::{CELLS, Cell, Mask, Memory, Position};
use hx_cells::each_cell;
use hx_fill::{Must, must, must_without_lines, without_lines};
use hx_io::Gate;
use hx_known::{Known, Knows};
use hx_limits::RanOut;
use hx_linkset::LinkSet;
use hx_ordering::{Situation, after};
use hx_reach::Workspace;
use std::alloc::Global;
use std::sync::Wait;

/// When the opponent's moves are answered.
#[derive(Clone, Copy, PartialEq)]
pub(crate) enum Answering {
    Always,

    /// Where zones refute each move that must be tried.
    WhereAllAreRefuted,
}

/// Adds cells to an order.
fn add_cells(order: &mut Vec<Cell>, position: &Position, cells: Mask) -> Result<(), Memory> {
    let size = position.size();
    for cell in each_cell(cells, size) {
        order.push(cell).map_err(|_| Memory)?;
    }
    Ok(())
}

/// The empty cells, these first.
fn order_of(alloc: Global, position: &Position, first: Mask) -> Result<Vec<Cell>, Memory> {
    let first = first.meet(position.empties());
    let mut order = Vec::new(alloc);
    add_cells(&mut order, position, first)?;
    add_cells(&mut order, position, position.empties().minus(first))?;
    Ok(order)
}

impl<K: Knows, G: Gate, R: Wait> Walk<'_, K, G, R, Workspace, LinkSet> {
    /// What must be tried by the winner's links, with a line for each cell than which another one is better, or with
    /// none.
    fn must_try(&self, order: &[Cell]) -> Result<Must, Memory> {
        if self.known.tries_all() {
            must_without_lines(&self.set)
        } else {
            must(&self.set, order)
        }
    }

    /// The moves to try, in an order: those that zones refute come first, so that the others are the ones to which they
    /// are better.
    fn moves_to_answer(&mut self, position: &Position, order: &[Cell]) -> Result<Mask, RanOut>
        ensures keeps { Keeps K.view self.old self.new }
        ensures stopped { IfErr result (Stops K.view self.new) }
    {
        let must = self.must_try(order)?;
        let tried = without_lines(must.cells, must.under.items());
        Ok(tried.meet(position.empties()))
    }

    /// These moves without those that are known to lose with this one. Nothing is taken off where nothing is known
    /// against it.
    fn without_lost(&mut self, situation: &Situation, left: Mask, cell: Cell) -> Mask
        ensures keeps { Keeps K.view self.old self.new }
    {
        let position = situation.filled.position();
        let is_empty = position.empties().has(cell);
        if !is_empty {
            return left;
        }
        let rt = self.worker.rt;
        left.minus(
            self.known
                .refuted_with(rt, position, situation.to_move, cell),
        )
    }

    /// These moves without those that lose with this one, where another worker has proved it meanwhile.
    fn without_proved(
        &mut self,
        situation: &Situation,
        left: Mask,
        cell: Cell,
    ) -> Result<Mask, RanOut>
        ensures keeps { Keeps K.view self.old self.new }
        ensures stopped { IfErr result (Stops K.view self.new) }
    {
        let other = situation.to_move.other();
        let Some(here) = after(&situation.filled, situation.to_move, cell) else {
            return Ok(left);
        };
        match self.look_at_marked(&here, other)? {
            Known::Proved => Ok(self.without_lost(situation, left, cell)),
            Known::Nothing => Ok(left),
        }
    }

    /// These moves without those that another worker has proved meanwhile to lose.
    fn without_marked(&mut self, situation: &Situation, cells: Mask) -> Result<Mask, RanOut>
        ensures keeps { Keeps K.view self.old self.new }
        ensures stopped { IfErr result (Stops K.view self.new) }
    {
        let size = situation.filled.position().size();
        let mut kept = cells;
        for cell in each_cell(cells, size) {
            kept = self.without_proved(situation, kept, cell)?;
        }
        Ok(kept)
    }

    /// Answers the moves one after the other, the one with the smallest zone first. None where each of them is
    /// answered, and else the end of the visit.
    #[cycle(walk)]
    fn answer(
        &mut self,
        situation: &Situation,
        cells: Mask,
        depth: u32,
    ) -> Result<Option<Known>, RanOut>
        requires { MayHold self.old depth }
        ensures keeps { Keeps K.view self.old self.new }
        ensures stopped { IfErr result (Stops K.view self.new) }
    {
        let mut left = cells;
        for _ in 0..CELLS {
            let Some(cell) = self.smallest(situation, left) else {
                return Ok(None);
            };
            self.descend(situation, cell, depth)?;
            let known = self.look_at_marked(&situation.filled, situation.to_move)?;
            left = self.without_lost(situation, left, cell);
            if known == Known::Proved || left.has(cell) || self.is_left(depth) {
                return Ok(Some(known));
            }
            left = self.without_marked(situation, left)?;
        }
        Ok(Some(Known::Nothing))
    }

    /// The opponent loses, whatever the move.
    #[cycle(walk)]
    pub(crate) fn by_answers(
        &mut self,
        situation: &Situation,
        depth: u32,
        answering: Answering,
    ) -> Result<Known, RanOut>
        requires { MayHold self.old depth }
        ensures keeps { Keeps K.view self.old self.new }
        ensures stopped { IfErr result (Stops K.view self.new) }
    {
        let (rt, alloc) = (self.worker.rt, self.worker.alloc);
        let (position, to_move) = (situation.filled.position(), situation.to_move);
        self.add_threats(situation)?;
        let told = self.zones.tell(position, to_move);
        let order = order_of(alloc, position, told.refuted)?;
        let cells = self.moves_to_answer(position, order.as_slice())?;
        let are_refuted = cells.minus(told.refuted).is_empty();
        if answering == Answering::WhereAllAreRefuted && !are_refuted {
            return Ok(Known::Nothing);
        }
        let asked = self
            .known
            .of_moves(rt, alloc, position, to_move, order.as_slice(), cells)?;
        if let Known::Proved = asked.known {
            return Ok(Known::Proved);
        }
        match self.answer(situation, cells.minus(asked.refuted), depth)? {
            Some(known) => Ok(known),
            None => self.known.by_answers(rt, &self.set, order.as_slice()),
        }
    }
}
