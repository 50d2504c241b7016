//! The way down to the position after a move, and which move is next.

ghost use Rattle.std.specs.Prelude.{IfErr};
ghost use Rattle.hx_walk.specs.Walks.{Keeps, MayHold, Stops};

use crate::walks::{NO_LIMIT, Walk};
use hx_board::{Cell, Mask};
use hx_cells::each_cell;
use hx_io::Gate;
use hx_known::{Known, Knows};
use hx_limits::RanOut;
use hx_linkset::LinkSet;
use hx_ordering::{Situation, Start, after, loss_word};
use hx_reach::Workspace;
use hx_zones::Kind;
use std::sync::Wait;

/// What a move counts after which no zone claims the position.
const UNCLAIMED: u64 = 500;

/// What each worker counts that is below a move.
const OF_WORKER: u64 = 1000;

impl<K: Knows, G: Gate, R: Wait> Walk<'_, K, G, R, Workspace, LinkSet> {
    /// Goes down to the position after a move, and comes back.
    #[cycle(walk)]
    pub(crate) fn descend(
        &mut self,
        situation: &Situation,
        cell: Cell,
        depth: u32,
    ) -> Result<Known, RanOut>
        requires { MayHold self.old depth }
        ensures keeps { Keeps K.view self.old self.new }
        ensures stopped { IfErr result (Stops K.view self.new) }
    {
        let other = situation.to_move.other();
        let Some(here) = after(&situation.filled, situation.to_move, cell) else {
            return Ok(Known::Nothing);
        };
        if depth == 0 {
            return Ok(Known::Nothing);
        }
        let word = loss_word(here.key(other));
        let start = Start {
            here,
            to_move: other,
            moved: Some(cell),
            limit: NO_LIMIT,
        };
        self.worker.counts.hold(self.seat, word);
        let known = self.visit(&start, depth - 1);
        self.worker.counts.release(self.seat, word);
        known
    }

    /// How many cells the zone has that claims the position after a move, and how many workers are below it. No move
    /// has the word of another position but by chance.
    fn size_after(&mut self, situation: &Situation, cell: Cell) -> u64
        requires { MayHold self.old 0 }
        ensures keeps { Keeps K.view self.old self.new }
    {
        let other = situation.to_move.other();
        let Some(here) = after(&situation.filled, situation.to_move, cell) else {
            return u64::MAX;
        };
        let kind = Kind {
            to_move: other,
            winner: self.winner,
        };
        let size = match self.zones.serving(here.position(), kind) {
            Some(zone) => u64::from(zone.free.count()),
            None => UNCLAIMED,
        };
        let word = loss_word(here.key(other));
        let workers = self.worker.counts.losses(self.seat, word);
        size.saturating_add(OF_WORKER.saturating_mul(workers))
    }

    /// The move among these after which a zone has the fewest cells: there the tree is small, and serves many.
    pub(crate) fn smallest(&mut self, situation: &Situation, cells: Mask) -> Option<Cell>
        requires { MayHold self.old 0 }
        ensures keeps { Keeps K.view self.old self.new }
    {
        let size = situation.filled.position().size();
        let mut best = None;
        let mut least = u64::MAX;
        for cell in each_cell(cells, size) {
            let here = self.size_after(situation, cell);
            if here < least {
                least = here;
                best = Some(cell);
            }
        }
        best
    }
}
