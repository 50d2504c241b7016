//! Where the winner is to move after a move of the opponent's: the walk passes on to the answer.
//!
//! Nearly half of what a walk comes to are such positions, and the zone that claims one mostly names its answer. There
//! the worker has no visit, and takes no unit: its stones and those of the answer are put on the set of links, the
//! position after the answer is visited, and on the way back the node of the move is made. A position that does not
//! become known so is visited as any other.

ghost use Rattle.std.specs.Prelude.{IfErr};
ghost use Rattle.hx_walk.specs.Walks.{Keeps, MayHold, Stops};

use crate::claims::situation_at;
use crate::walks::Walk;
use hx_dfpn::{put, take_back};
use hx_fill::Filled;
use hx_io::Gate;
use hx_known::{Known, Knows};
use hx_limits::RanOut;
use hx_linkset::LinkSet;
use hx_ordering::{Situation, Start};
use hx_reach::Workspace;
use hx_zones::widened;
use std::sync::Wait;

impl<K: Knows, G: Gate, R: Wait> Walk<'_, K, G, R, Workspace, LinkSet> {
    /// Passes on to the winner's answer. Nothing where the opponent is to move, no zone claims the position, or no move
    /// that zones name is known to win then.
    #[cycle(walk)]
    pub(crate) fn pass(&mut self, start: &Start, depth: u32) -> Result<Known, RanOut>
        requires { MayHold self.old depth }
        ensures keeps { Keeps K.view self.old self.new }
        ensures stopped { IfErr result (Stops K.view self.new) }
    {
        let (alloc, winner) = (self.worker.alloc, self.winner);
        if start.to_move != winner {
            return Ok(Known::Nothing);
        }
        let position = start.here.position();
        let Some(zone) = self.zones.won_by(position, winner, winner) else {
            return Ok(Known::Nothing);
        };
        let Some(wide) = widened(position, winner, zone.free) else {
            return Ok(Known::Nothing);
        };
        let unfilled = Filled::none(alloc, &wide);
        let situation = situation_at(alloc, start, &wide, winner, &unfilled)?;
        let known = self.pass_at(&situation, depth)?;
        self.mark(&situation.filled, winner, known);
        self.mark(&start.here, winner, known);
        Ok(known)
    }

    /// The position that the zone claims becomes known by a move, its stones on the set of links.
    #[cycle(walk)]
    fn pass_at(&mut self, situation: &Situation, depth: u32) -> Result<Known, RanOut>
        requires { MayHold self.old depth }
        ensures keeps { Keeps K.view self.old self.new }
        ensures stopped { IfErr result (Stops K.view self.new) }
    {
        let key = self.mark_key(&situation.filled, situation.to_move);
        self.way.note(depth, key);
        let before = put(&mut self.set, situation, self.winner)?;
        let known = self.by_win(situation, depth);
        take_back(&mut self.set, before);
        known
    }
}
