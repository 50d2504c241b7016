//! A widened position before anything is filled in there: where it becomes known so, its node is enough, and none of
//! fill steps leads to it.

ghost use Rattle.std.specs.Prelude.{IfErr};
ghost use Rattle.hx_walk.specs.Walks.{Keeps, MayHold, Stops};

use crate::answers::Answering;
use crate::claims::situation_at;
use crate::walks::Walk;
use hx_board::Position;
use hx_dfpn::{put, take_back};
use hx_fill::Filled;
use hx_io::Gate;
use hx_known::{Known, Knows};
use hx_limits::RanOut;
use hx_linkset::LinkSet;
use hx_ordering::{Situation, Start};
use hx_reach::Workspace;
use std::sync::Wait;

impl<K: Knows, G: Gate, R: Wait> Walk<'_, K, G, R, Workspace, LinkSet> {
    /// The widened position becomes known before fill-in. Nothing where nothing is filled in.
    #[cycle(walk)]
    pub(crate) fn by_unfilled(
        &mut self,
        start: &Start,
        wide: &Position,
        filled: &Filled,
        depth: u32,
    ) -> Result<Known, RanOut>
        requires { MayHold self.old depth }
        ensures keeps { Keeps K.view self.old self.new }
        ensures stopped { IfErr result (Stops K.view self.new) }
    {
        if filled.steps.is_empty() {
            return Ok(Known::Nothing);
        }
        let alloc = self.worker.alloc;
        let unfilled = Filled::none(alloc, wide);
        let situation = situation_at(alloc, start, wide, self.winner, &unfilled)?;
        let key = self.mark_key(&situation.filled, situation.to_move);
        self.way.note(depth, key);
        let before = put(&mut self.set, &situation, self.winner)?;
        let known = self.at_unfilled(&situation, &filled.position, depth);
        take_back(&mut self.set, before);
        known
    }

    /// The position of the set becomes known by a link, or by answers to all moves, where zones have them and what
    /// fill-in leaves is not known yet.
    #[cycle(walk)]
    fn at_unfilled(
        &mut self,
        situation: &Situation,
        filled: &Position,
        depth: u32,
    ) -> Result<Known, RanOut>
        requires { MayHold self.old depth }
        ensures keeps { Keeps K.view self.old self.new }
        ensures stopped { IfErr result (Stops K.view self.new) }
    {
        let to_move = situation.to_move;
        if let Known::Proved = self.by_links(to_move)? {
            return Ok(Known::Proved);
        }
        if to_move == self.winner {
            return Ok(Known::Nothing);
        }
        if let Known::Proved = self.look_up(filled, to_move)? {
            return Ok(Known::Nothing);
        }
        self.by_answers(situation, depth, Answering::WhereAllAreRefuted)
    }
}
