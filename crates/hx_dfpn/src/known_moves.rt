//! Moves of which it is known who wins after them, though nobody came there.
//!
//! What was found of one position may tell of many. So each move is asked about before the visit goes down, and once a
//! move is refuted those that lose by the same proof are left out with it. In a hard search these are 2,000 to 40,000
//! moves.

ghost use Rattle.std.specs.Prelude.{IfErr};
ghost use Rattle.hx_dfpn.specs.Searches.{Keeps, Stops};

use crate::outcomes::Outcome;
use crate::searches::Search;
use hx_board::{Cell, Mask};
use hx_io::Gate;
use hx_known::{Known, Knows};
use hx_limits::RanOut;
use hx_linkset::LinkSet;
use hx_ordering::{Child, Moves, Situation};
use hx_reach::Workspace;
use std::sync::Wait;

impl<K: Knows, G: Gate, R: Wait> Search<'_, K, G, R, Workspace, LinkSet> {
    /// The moves that lose by what is known against this one, itself among them. No cell where nothing is known against
    /// it.
    fn refuted_with(&mut self, situation: &Situation, cell: Cell) -> Mask
        ensures keeps { Keeps K.view self.old self.new }
    {
        let position = situation.filled.position();
        let is_empty = position.empties().has(cell);
        if !is_empty {
            return Mask::empty();
        }
        let rt = self.worker.rt;
        self.known
            .refuted_with(rt, position, situation.to_move, cell)
    }

    /// Asks what is known of each move. Some where that ends the visit; the moves that lose are left out.
    pub(crate) fn look_at_all(
        &mut self,
        situation: &Situation,
        moves: &mut Moves,
    ) -> Result<Option<Outcome>, RanOut>
        ensures keeps { Keeps K.view self.old self.new }
        ensures stopped { IfErr result (Stops K.view self.new) }
    {
        let (rt, alloc) = (self.worker.rt, self.worker.alloc);
        let position = situation.filled.position();
        let order = moves.order.as_slice();
        let cells = cells_of(moves.children.as_slice());
        let asked = self
            .known
            .of_moves(rt, alloc, position, situation.to_move, order, cells)?;
        if let Known::Proved = asked.known {
            return Ok(Some(Outcome::Proved));
        }
        moves.leave_out_all(asked.refuted);
        Ok(None)
    }

    /// Leaves out the moves that lose by what is known against a move.
    pub(crate) fn leave_out_siblings(
        &mut self,
        situation: &Situation,
        moves: &mut Moves,
        cell: Cell,
    )
        ensures keeps { Keeps K.view self.old self.new }
    {
        let refuted = self.refuted_with(situation, cell);
        moves.leave_out_all(refuted);
    }
}

/// The cells of moves.
fn cells_of(children: &[Child]) -> Mask {
    let mut cells = Mask::empty();
    for child in children {
        cells = cells.with(child.cell);
    }
    cells
}
