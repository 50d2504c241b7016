//! What is known of a position before its moves are tried: by what was found before, by the chains and by the links.

ghost use Rattle.std.specs.Prelude.{IfErr};
ghost use Rattle.hx_dfpn.specs.Searches.{Keeps, Stops};

use crate::outcomes::Outcome;
use crate::searches::Search;
use hx_board::{Colour, Position, chain};
use hx_io::Gate;
use hx_known::{Known, Knows};
use hx_limits::RanOut;
use hx_linkset::LinkSet;
use hx_ordering::Situation;
use hx_reach::{Reached, Workspace, reach_with};
use std::sync::Wait;

impl<K: Knows, G: Gate, R: Wait> Search<'_, K, G, R, Workspace, LinkSet> {
    /// Asks what is known of a position, and then tests both players' chains.
    pub(crate) fn look_up(
        &mut self,
        position: &Position,
        to_move: Colour,
    ) -> Result<Option<Outcome>, RanOut>
        ensures keeps { Keeps K.view self.old self.new }
        ensures stopped { IfErr result (Stops K.view self.new) }
    {
        let rt = self.worker.rt;
        if let Known::Proved = self.known.of_position(rt, position, to_move)? {
            return Ok(Some(Outcome::Proved));
        }
        if chain(position, Colour::Black) {
            self.known.by_chain(rt, position, to_move, Colour::Black)?;
            return Ok(Some(Outcome::Proved));
        }
        if chain(position, Colour::White) {
            self.known.by_chain(rt, position, to_move, Colour::White)?;
            return Ok(Some(Outcome::Proved));
        }
        Ok(None)
    }

    /// Does the same after fill-in, where anything was filled.
    pub(crate) fn look_up_filled(
        &mut self,
        situation: &Situation,
    ) -> Result<Option<Outcome>, RanOut>
        ensures keeps { Keeps K.view self.old self.new }
        ensures stopped { IfErr result (Stops K.view self.new) }
    {
        if !situation.is_filled {
            return Ok(None);
        }
        self.look_up(situation.filled.position(), situation.to_move)
    }

    /// Brings the mover's links up to date, and tells of one that decides the position.
    pub(crate) fn by_own_links(&mut self, situation: &Situation) -> Result<Option<Outcome>, RanOut>
        ensures keeps { Keeps K.view self.old self.new }
        ensures stopped { IfErr result (Stops K.view self.new) }
    {
        let rt = self.worker.rt;
        match reach_with(&mut self.workspace, &mut self.own, situation.to_move)? {
            Reached::Decided(index) => {
                self.known.by_link(rt, &self.own, situation.to_move, index)?;
                Ok(Some(Outcome::Proved))
            }
            Reached::Open => Ok(None),
        }
    }

    /// Does the same with the other player's links.
    pub(crate) fn by_others_links(
        &mut self,
        situation: &Situation,
    ) -> Result<Option<Outcome>, RanOut>
        ensures keeps { Keeps K.view self.old self.new }
        ensures stopped { IfErr result (Stops K.view self.new) }
    {
        let rt = self.worker.rt;
        match reach_with(&mut self.workspace, &mut self.others, situation.to_move)? {
            Reached::Decided(index) => {
                self.known
                    .by_link(rt, &self.others, situation.to_move, index)?;
                Ok(Some(Outcome::Proved))
            }
            Reached::Open => Ok(None),
        }
    }
}
