//! A worker's visits: the position of a player to move is proved, or its numbers come to a limit.
//!
//! A visit asks for a unit, and looks the position up. Then it fills in, and puts the move that led to it and what was
//! filled on both sets of links, the mover's first; links and the moves that must be tried tell where to go down.
//! Whatever a visit meets, it takes back all that it put, and releases all that it held.
//!
//! A visit ends open, too, where another worker proved a position further up on its way (`ways.rt`): the visit there
//! will look that proof up, and has no use for what is below. So a worker goes back up to that position at once.

ghost use Rattle.std.specs.Prelude.{IfErr};
ghost use Rattle.hx_fill.specs.Fills.{IsFillIn};
ghost use Rattle.hx_dfpn.specs.Searches.{Keeps, MayHold, Stops};

use crate::left_hints::{leave, leave_proved};
use crate::outcomes::Outcome;
use crate::searches::Search;
use crate::sets::{put, take_back};
use crate::workers::ask;
use hx_fill::Filled;
use hx_io::Gate;
use hx_known::{Known, Knows};
use hx_limits::RanOut;
use hx_linkset::LinkSet;
use hx_ordering::{Choice, Down, Moves, Situation, Start, choose, loss_word, numbers_of};
use hx_reach::Workspace;
use std::mem::swap;
use std::sync::Wait;

impl<K: Knows, G: Gate, R: Wait> Search<'_, K, G, R, Workspace, LinkSet> {
    /// A visit. No more than `depth` moves are made.
    #[cycle(search)]
    fn visit(&mut self, start: &Start, depth: u32) -> Result<Outcome, RanOut>
        requires { MayHold self.old depth }
        ensures keeps { Keeps K.view self.old self.new }
        ensures stopped { IfErr result (Stops K.view self.new) }
    {
        ask(self.worker, self.seat)?;
        self.visit_granted(start, depth)
    }

    /// A visit whose unit was granted.
    #[cycle(search)]
    pub(crate) fn visit_granted(&mut self, start: &Start, depth: u32) -> Result<Outcome, RanOut>
        requires { MayHold self.old depth }
        ensures keeps { Keeps K.view self.old self.new }
        ensures stopped { IfErr result (Stops K.view self.new) }
    {
        let position = start.here.position();
        if let Some(outcome) = self.look_up(position, start.to_move)? {
            leave(self.worker.hints, &start.here, start.to_move, outcome);
            return Ok(outcome);
        }
        let filled = self.known.fill(self.worker.alloc, position)?;
        let situation = Situation::of(self.worker.alloc, start, &filled)?;
        let outcome = self.with_own(&situation, depth)?;
        leave_proved(
            self.worker.hints,
            &situation.filled,
            situation.to_move,
            outcome,
        );
        self.conclude(start, &filled, outcome)
    }

    /// Goes on with the visit's stones on the mover's set, or with a new set.
    #[cycle(search)]
    fn with_own(&mut self, situation: &Situation, depth: u32) -> Result<Outcome, RanOut>
        requires { MayHold self.old depth }
        ensures keeps { Keeps K.view self.old self.new }
        ensures stopped { IfErr result (Stops K.view self.new) }
    {
        if let Some(outcome) = self.look_up_filled(situation)? {
            return Ok(outcome);
        }
        let before = put(&mut self.own, situation, situation.to_move)?;
        let outcome = self.with_others(situation, depth);
        take_back(&mut self.own, before);
        outcome
    }

    /// Brings the mover's links up to date, and goes on with the visit's stones on the other player's set, or with a
    /// new set.
    #[cycle(search)]
    fn with_others(&mut self, situation: &Situation, depth: u32) -> Result<Outcome, RanOut>
        requires { MayHold self.old depth }
        ensures keeps { Keeps K.view self.old self.new }
        ensures stopped { IfErr result (Stops K.view self.new) }
    {
        if let Some(outcome) = self.by_own_links(situation)? {
            return Ok(outcome);
        }
        let before = put(&mut self.others, situation, situation.to_move.other())?;
        let outcome = self.expand(situation, depth);
        take_back(&mut self.others, before);
        outcome
    }

    /// Brings the other player's links up to date, and goes down to one move after the other.
    #[cycle(search)]
    fn expand(&mut self, situation: &Situation, depth: u32) -> Result<Outcome, RanOut>
        requires { MayHold self.old depth }
        ensures keeps { Keeps K.view self.old self.new }
        ensures stopped { IfErr result (Stops K.view self.new) }
    {
        if let Some(outcome) = self.by_others_links(situation)? {
            return Ok(outcome);
        }
        let worker = self.worker;
        let mut moves = Moves::of(
            worker.hints,
            worker.replies,
            &self.own,
            &self.others,
            situation,
            self.known.tries_all(),
        )?;
        if let Some(outcome) = self.look_at_all(situation, &mut moves)? {
            return Ok(outcome);
        }
        let all = moves.children.len();
        if let Some(outcome) = self.look_at_marked(situation, &mut moves, all)? {
            return Ok(outcome);
        }
        let key = situation.filled.key(situation.to_move);
        self.way.note(depth, key);
        // Hints may change at any time, so nothing says how many rounds there are.
        for _ in 0..u64::MAX {
            if let Some(outcome) = self.go_on(situation, &mut moves, depth)? {
                return Ok(outcome);
            }
        }
        Ok(Outcome::Open(situation.limit))
    }

    /// Looks for what others proved, and goes down to the move that the numbers choose, or ends the visit where nobody
    /// waits for it. None where the visit goes on after that.
    #[cycle(search)]
    fn go_on(
        &mut self,
        situation: &Situation,
        moves: &mut Moves,
        depth: u32,
    ) -> Result<Option<Outcome>, RanOut>
        requires { MayHold self.old depth }
        ensures keeps { Keeps K.view self.old self.new }
        ensures stopped { IfErr result (Stops K.view self.new) }
    {
        if let Some(outcome) = self.look_again(situation, moves)? {
            return Ok(Some(outcome));
        }
        let worker = self.worker;
        // Where all moves lose the proof is at hand, so it is told even if nobody waits for it.
        let is_open = !moves.children.is_empty();
        if is_open && self.way.is_marked_above(worker.hints, depth) {
            let numbers = numbers_of(worker.counts, worker.hints, self.seat, moves);
            return Ok(Some(Outcome::Open(numbers)));
        }
        let down = match choose(worker.counts, worker.hints, self.seat, situation, moves) {
            Choice::Down(down) => down,
            Choice::Limit(numbers) => return Ok(Some(Outcome::Open(numbers))),
            Choice::AllLose => return Ok(Some(self.all_lose(moves)?)),
        };
        let outcome = self.descend(&down, depth)?;
        self.take_in(situation, moves, &down, outcome)
    }

    /// Goes down to the position after a move, whose mover is the other player, and comes back.
    #[cycle(search)]
    fn descend(&mut self, down: &Down, depth: u32) -> Result<Outcome, RanOut>
        requires { MayHold self.old depth }
        ensures keeps { Keeps K.view self.old self.new }
        ensures stopped { IfErr result (Stops K.view self.new) }
    {
        if depth == 0 {
            return Ok(Outcome::Open(down.child.numbers));
        }
        let word = loss_word(down.child.key);
        // Before the visit below asks for its unit: so other workers see the hold while this one waits at its gate.
        self.worker.counts.hold(self.seat, word);
        swap(&mut self.own, &mut self.others);
        let outcome = self.visit(&down.start, depth - 1);
        swap(&mut self.own, &mut self.others);
        self.worker.counts.release(self.seat, word);
        outcome
    }

    /// Ends a visit: where the position after fill-in was proved, so is the position before it; and a hint is left.
    fn conclude(
        &mut self,
        start: &Start,
        filled: &Filled,
        outcome: Outcome,
    ) -> Result<Outcome, RanOut>
        requires { IsFillIn start.now.here filled.now.steps.items filled.now.position }
        ensures keeps { Keeps K.view self.old self.new }
        ensures stopped { IfErr result (Stops K.view self.new) }
    {
        let concluded = match outcome {
            Outcome::Proved => self.by_fill(start, filled)?,
            Outcome::Open(_) => outcome,
        };
        leave(self.worker.hints, &start.here, start.to_move, concluded);
        Ok(concluded)
    }

    /// The position before fill-in is known, where the one after it was proved.
    fn by_fill(&mut self, start: &Start, filled: &Filled) -> Result<Outcome, RanOut>
        requires { IsFillIn start.now.here filled.now.steps.items filled.now.position }
        ensures keeps { Keeps K.view self.old self.new }
        ensures stopped { IfErr result (Stops K.view self.new) }
    {
        let (rt, alloc) = (self.worker.rt, self.worker.alloc);
        let position = start.here.position();
        match self
            .known
            .by_fill(rt, alloc, position, start.to_move, filled)?
        {
            Known::Proved => Ok(Outcome::Proved),
            Known::Nothing => Ok(Outcome::Open(start.limit)),
        }
    }
}
