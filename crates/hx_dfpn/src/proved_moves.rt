//! What is known of a visit's moves, once some are proved: by the visit after a move, or by marks.

ghost use Rattle.std.specs.Prelude.{IfErr};
ghost use Rattle.hx_dfpn.specs.Searches.{Keeps, Stops};

use crate::outcomes::{Outcome, outcome_of};
use crate::searches::Search;
use hx_board::Cell;
use hx_io::Gate;
use hx_known::{Known, Knows};
use hx_limits::RanOut;
use hx_linkset::LinkSet;
use hx_ordering::{
    Child, Down, Moves, Replies, Situation, after, first_numbers, in_focus, is_marked, leave_open,
    open,
};
use hx_pn::{INF, Numbers};
use hx_reach::Workspace;
use std::sync::Wait;

/// The numbers of a visit whose moves all lose.
const LOST: Numbers = Numbers { phi: INF, delta: 0 };

impl<K: Knows, G: Gate, R: Wait> Search<'_, K, G, R, Workspace, LinkSet> {
    /// Looks for the visit's own position, where it is marked, and then for the marked moves in focus: another worker
    /// may have proved them since. Some where that ends the visit.
    pub(crate) fn look_again(
        &mut self,
        situation: &Situation,
        moves: &mut Moves,
    ) -> Result<Option<Outcome>, RanOut>
        ensures keeps { Keeps K.view self.old self.new }
        ensures stopped { IfErr result (Stops K.view self.new) }
    {
        if let Some(outcome) = self.look_at_own(situation)? {
            return Ok(Some(outcome));
        }
        let count = in_focus(moves).len();
        self.look_at_marked(situation, moves, count)
    }

    /// Looks for the visit's own position, where it is marked. A mark of which nothing is known was another position's,
    /// and is written anew.
    fn look_at_own(&mut self, situation: &Situation) -> Result<Option<Outcome>, RanOut>
        ensures keeps { Keeps K.view self.old self.new }
        ensures stopped { IfErr result (Stops K.view self.new) }
    {
        let worker = self.worker;
        let key = situation.filled.key(situation.to_move);
        if !is_marked(worker.hints, key) {
            return Ok(None);
        }
        let position = situation.filled.position();
        match self
            .known
            .of_position(worker.rt, position, situation.to_move)?
        {
            Known::Proved => Ok(Some(Outcome::Proved)),
            Known::Nothing => {
                leave_open(worker.hints, key, first_numbers(position));
                Ok(None)
            }
        }
    }

    /// Looks for the marked ones among the first so many moves, the last one first. Some where that ends the visit.
    pub(crate) fn look_at_marked(
        &mut self,
        situation: &Situation,
        moves: &mut Moves,
        count: usize,
    ) -> Result<Option<Outcome>, RanOut>
        ensures keeps { Keeps K.view self.old self.new }
        ensures stopped { IfErr result (Stops K.view self.new) }
    {
        let mut left = count;
        while left > 0 {
            left -= 1;
            if let Some(outcome) = self.look_at(situation, moves, left)? {
                return Ok(Some(outcome));
            }
        }
        Ok(None)
    }

    /// Looks for the move at a place, where it is marked. A mark of which nothing is known was another position's, and
    /// is written anew.
    fn look_at(
        &mut self,
        situation: &Situation,
        moves: &mut Moves,
        place: usize,
    ) -> Result<Option<Outcome>, RanOut>
        ensures keeps { Keeps K.view self.old self.new }
        ensures stopped { IfErr result (Stops K.view self.new) }
    {
        let worker = self.worker;
        let Some(child) = moves.children.get(place).copied() else {
            return Ok(None);
        };
        if !is_marked(worker.hints, child.key) {
            return Ok(None);
        }
        let Some(there) = after(&situation.filled, situation.to_move, child.cell) else {
            return Ok(None);
        };
        let other = situation.to_move.other();
        match self.known.of_position(worker.rt, there.position(), other)? {
            Known::Proved => self.by_move(situation, moves, place, &child),
            Known::Nothing => {
                leave_open(worker.hints, child.key, child.numbers);
                Ok(None)
            }
        }
    }

    /// It is known who wins after a move. Where the mover does, the visit ends by it; else the move is left out.
    fn by_move(
        &mut self,
        situation: &Situation,
        moves: &mut Moves,
        place: usize,
        child: &Child,
    ) -> Result<Option<Outcome>, RanOut>
        ensures keeps { Keeps K.view self.old self.new }
        ensures stopped { IfErr result (Stops K.view self.new) }
    {
        if let Some(outcome) = self.win_by(situation, child.cell)? {
            return Ok(Some(outcome));
        }
        moves.leave_out(place);
        self.leave_out_siblings(situation, moves, child.cell);
        Ok(None)
    }

    /// The end of the visit by a move, where it is known that the mover wins after it.
    pub(crate) fn win_by(
        &mut self,
        situation: &Situation,
        cell: Cell,
    ) -> Result<Option<Outcome>, RanOut>
        ensures keeps { Keeps K.view self.old self.new }
        ensures stopped { IfErr result (Stops K.view self.new) }
    {
        let position = situation.filled.position();
        let is_empty = position.empties().has(cell);
        if !is_empty {
            return Ok(None);
        }
        let (rt, alloc) = (self.worker.rt, self.worker.alloc);
        let known = self
            .known
            .by_move(rt, alloc, position, situation.to_move, cell)?;
        Ok(outcome_of(known))
    }

    /// What the visit after a move tells of the visit itself. None where it goes on.
    pub(crate) fn take_in(
        &mut self,
        situation: &Situation,
        moves: &mut Moves,
        down: &Down,
        outcome: Outcome,
    ) -> Result<Option<Outcome>, RanOut>
        ensures keeps { Keeps K.view self.old self.new }
        ensures stopped { IfErr result (Stops K.view self.new) }
    {
        match outcome {
            Outcome::Proved => {
                let known = self.by_move(situation, moves, down.place, &down.child)?;
                note_reply(self.worker.replies, situation, down.child.cell, &known);
                Ok(known)
            }
            Outcome::Open(numbers) => {
                // The visit left them as a hint too, but by now the hint's word may be another position's. Without this
                // three of the eight boards of `.ci/units` take another number of units.
                moves.note(down.place, open(numbers));
                Ok(None)
            }
        }
    }

    /// Ends a visit whose moves all lose.
    pub(crate) fn all_lose(&mut self, moves: &Moves) -> Result<Outcome, RanOut>
        ensures keeps { Keeps K.view self.old self.new }
        ensures stopped { IfErr result (Stops K.view self.new) }
    {
        let order = moves.order.as_slice();
        match self.known.by_answers(self.worker.rt, &self.others, order)? {
            Known::Proved => Ok(Outcome::Proved),
            Known::Nothing => Ok(Outcome::Open(LOST)),
        }
    }
}

/// Counts a move that a search found to win.
fn note_reply(replies: &Replies, situation: &Situation, cell: Cell, known: &Option<Outcome>) {
    if let Some(Outcome::Proved) = known {
        replies.note(situation, cell);
    }
}
