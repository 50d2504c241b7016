//! The winner is to move: some move wins.

ghost use Rattle.std.specs.Prelude.{IfErr};
ghost use Rattle.hx_walk.specs.Walks.{Keeps, MayHold, Stops};

use crate::walks::Walk;
use hx_board::{Cell, Mask};
use hx_cells::each_cell;
use hx_io::Gate;
use hx_known::{Known, Knows};
use hx_limits::RanOut;
use hx_linkset::LinkSet;
use hx_ordering::Situation;
use hx_reach::Workspace;
use std::sync::Wait;

/// How many moves are tried.
const MOVES: u32 = 3;

impl<K: Knows, G: Gate, R: Wait> Walk<'_, K, G, R, Workspace, LinkSet> {
    /// The position is known by a move after which it is known that the winner wins.
    fn won_by(&mut self, situation: &Situation, cell: Cell) -> Result<Known, RanOut>
        ensures keeps { Keeps K.view self.old self.new }
        ensures stopped { IfErr result (Stops K.view self.new) }
    {
        let position = situation.filled.position();
        let is_empty = position.empties().has(cell);
        if !is_empty {
            return Ok(Known::Nothing);
        }
        let (rt, alloc) = (self.worker.rt, self.worker.alloc);
        self.known
            .by_move(rt, alloc, position, situation.to_move, cell)
    }

    /// The position is known by one of these moves, though nobody went there.
    fn won_by_any(&mut self, situation: &Situation, cells: Mask) -> Result<Known, RanOut>
        ensures keeps { Keeps K.view self.old self.new }
        ensures stopped { IfErr result (Stops K.view self.new) }
    {
        let size = situation.filled.position().size();
        for cell in each_cell(cells, size) {
            if let Known::Proved = self.won_by(situation, cell)? {
                return Ok(Known::Proved);
            }
        }
        Ok(Known::Nothing)
    }

    /// What is known of the position when the walk is back from a move, after which this is known. Another worker may
    /// have proved it meanwhile.
    fn won_after(
        &mut self,
        situation: &Situation,
        cell: Cell,
        below: Known,
    ) -> Result<Known, RanOut>
        ensures keeps { Keeps K.view self.old self.new }
        ensures stopped { IfErr result (Stops K.view self.new) }
    {
        if let Known::Proved = self.look_at_marked(&situation.filled, situation.to_move)? {
            return Ok(Known::Proved);
        }
        match below {
            Known::Proved => self.won_by(situation, cell),
            Known::Nothing => Ok(Known::Nothing),
        }
    }

    /// The winner wins by a move that zones name.
    #[cycle(walk)]
    pub(crate) fn by_win(&mut self, situation: &Situation, depth: u32) -> Result<Known, RanOut>
        requires { MayHold self.old depth }
        ensures keeps { Keeps K.view self.old self.new }
        ensures stopped { IfErr result (Stops K.view self.new) }
    {
        let position = situation.filled.position();
        let told = self.zones.tell(position, situation.to_move);
        let mut left = told.wins.meet(position.empties());
        if let Known::Proved = self.won_by_any(situation, left)? {
            return Ok(Known::Proved);
        }
        for _ in 0..MOVES {
            let Some(cell) = self.smallest(situation, left) else {
                return Ok(Known::Nothing);
            };
            left = left.without(cell);
            let below = self.descend(situation, cell, depth)?;
            let known = self.won_after(situation, cell, below)?;
            if known == Known::Proved || self.is_left(depth) {
                return Ok(known);
            }
        }
        Ok(Known::Nothing)
    }
}
