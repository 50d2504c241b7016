//! A table of zones as a search asks it and adds to it.
//!
//! It borrows whoever knows by proofs, and never asks or tells it anything. So its view is that one's, behind one
//! borrow more, and what a search promises of a view is true of the proofs too: they stay as they were.

ghost use Rattle.std.specs.Prelude.{◌≡◌};

use crate::answers::draft_answers;
use crate::chains::draft_chain;
use crate::fills::draft_fill;
use crate::links::draft_link;
use crate::moves::draft_move;
use hx_board::{Cell, Colour, Mask, Memory, Position};
use hx_fill::{Filled, fill_in, fill_in_for};
use hx_known::{Known, Knows, OfMoves};
use hx_limits::RanOut;
use hx_linkset::LinkSet;
use hx_zones::{Kind, Zones};
use std::alloc::Global;
use std::sync::Wait;

/// Zones are looked for and kept. To be known says nothing here: a position is known where some zone serves it, right
/// or wrong.
pub struct Sketch<'a, K> {
    known: &'a mut K,
    zones: &'a Zones,

    /// The position and mover of which no zone is believed, until one is kept of them anew.
    doubted: Option<(Position, Colour)>,
}

impl<'a, K> Sketch<'a, K> {
    /// Whoever knows by these zones, beside whoever knows by proofs.
    pub fn new(known: &'a mut K, zones: &'a Zones) -> Sketch<'a, K>
        ensures same { result.known.ghost_name ≡ known.entry.ghost_name }
        ensures now { result.known.now ≡ known.old }
    {
        Sketch {
            known,
            zones,
            doubted: None,
        }
    }

    /// The same, where no zone is believed of this position: it is sketched anew, as it stands.
    pub fn anew(
        known: &'a mut K,
        zones: &'a Zones,
        position: &Position,
        to_move: Colour,
    ) -> Sketch<'a, K>
        ensures same { result.known.ghost_name ≡ known.entry.ghost_name }
        ensures now { result.known.now ≡ known.old }
    {
        Sketch {
            known,
            zones,
            doubted: Some((*position, to_move)),
        }
    }

    /// Whether zones of this position and mover are doubted.
    fn doubts(&self, position: &Position, to_move: Colour) -> bool {
        self.doubted == Some((*position, to_move))
    }

    /// A zone of this position and mover was kept.
    fn believe(&mut self, position: &Position, to_move: Colour)
        ensures { self.new.known ≡ self.old.known }
    {
        if self.doubts(position, to_move) {
            self.doubted = None;
        }
    }

    /// What is known where a zone of this position and mover was kept, or was not.
    fn known_if(&mut self, position: &Position, to_move: Colour, is_kept: bool) -> Known
        ensures { self.new.known ≡ self.old.known }
    {
        if !is_kept {
            return Known::Nothing;
        }
        self.believe(position, to_move);
        Known::Proved
    }
}

// It says what is left behind the borrow.
impl<'a, K> Drop for Sketch<'a, K> {
    fn drop(self)
        ensures { self.exit.0.now ≡ self.entry.known.now }
    {
        let Self {
            known: _,
            zones: _,
            doubted: _,
        } = self;
    }
}

/// Keeps the zone of a player's move to a cell, where that is empty and a zone says that the player wins after it.
/// Whether one does.
fn draft_move_if_empty(zones: &Zones, position: &Position, to_move: Colour, cell: Cell) -> bool {
    let is_empty = position.empties().has(cell);
    is_empty && draft_move(zones, position, to_move, cell)
}

/// The first cell in the order that is among the wins and the cells to try. Where there is none, the first one among
/// the wins: a zone may have a move win that links do not ask for.
fn first_of(order: &[Cell], wins: Mask, cells: Mask) -> Option<Cell> {
    let mut first = None;
    for cell in order {
        if wins.meet(cells).has(*cell) {
            return Some(*cell);
        }
        if first.is_none() && wins.has(*cell) {
            first = Some(*cell);
        }
    }
    first
}

impl<K: Knows> Knows for Sketch<'_, K> {
    ghost use Rattle.std.specs.Prelude.{◌∷◌};

    ghost view = { λ f.
        record {
          sight = (K.view f.known.now).sight;
          behind = f.known.ghost_name ∷ (K.view f.known.now).behind;
        } };

    ghost proved = { λ f board mover. Unit {0} };

    ghost settled = { λ f board mover. Unit {0} };

    ghost refuted = { λ f board mover cell. Unit {0} };

    fn tries_all(&self) -> bool {
        false
    }

    fn fill(&self, alloc: Global, position: &Position) -> Result<Filled, Memory> {
        // A doubted position is sketched as it stands: a zone of the filled one may be what is doubted.
        if self.doubts(position, Colour::Black) || self.doubts(position, Colour::White) {
            return Ok(Filled::none(alloc, position));
        }
        fill_in(alloc, position)
    }

    fn fill_for(
        &self,
        alloc: Global,
        position: &Position,
        player: Colour,
    ) -> Result<Filled, Memory> {
        fill_in_for(alloc, position, player)
    }

    fn of_position<R: Wait>(
        &mut self,
        _rt: &R,
        position: &Position,
        to_move: Colour,
    ) -> Result<Known, RanOut> {
        if !self.doubts(position, to_move) && self.zones.knows(position, to_move) {
            Ok(Known::Proved)
        } else {
            Ok(Known::Nothing)
        }
    }

    fn by_chain<R: Wait>(
        &mut self,
        _rt: &R,
        position: &Position,
        to_move: Colour,
        winner: Colour,
    ) -> Result<(), RanOut> {
        draft_chain(self.zones, position, winner);
        self.believe(position, to_move);
        Ok(())
    }

    fn by_link<R: Wait>(
        &mut self,
        _rt: &R,
        set: &LinkSet,
        to_move: Colour,
        index: u32,
    ) -> Result<(), RanOut> {
        draft_link(self.zones, set, to_move, index)?;
        self.believe(set.position(), to_move);
        Ok(())
    }

    fn by_move<R: Wait>(
        &mut self,
        _rt: &R,
        _alloc: Global,
        position: &Position,
        to_move: Colour,
        cell: Cell,
    ) -> Result<Known, RanOut> {
        let is_kept = draft_move(self.zones, position, to_move, cell);
        Ok(self.known_if(position, to_move, is_kept))
    }

    fn of_moves<R: Wait>(
        &mut self,
        _rt: &R,
        _alloc: Global,
        position: &Position,
        to_move: Colour,
        order: &[Cell],
        cells: Mask,
    ) -> Result<OfMoves, RanOut> {
        let told = self.zones.tell(position, to_move);
        let wins = told.wins.meet(position.empties());
        let known = match first_of(order, wins, cells) {
            Some(cell) => {
                let is_kept = draft_move_if_empty(self.zones, position, to_move, cell);
                self.known_if(position, to_move, is_kept)
            }
            None => Known::Nothing,
        };
        Ok(OfMoves {
            known,
            refuted: told.refuted,
        })
    }

    fn by_answers<R: Wait>(
        &mut self,
        _rt: &R,
        set: &LinkSet,
        order: &[Cell],
    ) -> Result<Known, RanOut> {
        let is_kept = draft_answers(self.zones, set, order)?;
        Ok(self.known_if(set.position(), set.colour().other(), is_kept))
    }

    fn by_fill<R: Wait>(
        &mut self,
        _rt: &R,
        alloc: Global,
        position: &Position,
        to_move: Colour,
        filled: &Filled,
    ) -> Result<Known, RanOut> {
        let is_kept = draft_fill(self.zones, alloc, position, to_move, filled)?;
        Ok(self.known_if(position, to_move, is_kept))
    }

    fn refuted_with<R: Wait>(
        &mut self,
        _rt: &R,
        position: &Position,
        to_move: Colour,
        cell: Cell,
    ) -> Mask {
        let next = position.with(to_move, cell);
        let other = to_move.other();
        let kind = Kind {
            to_move: other,
            winner: other,
        };
        match self.zones.serving(&next, kind) {
            Some(zone) => position.empties().minus(zone.free),
            None => Mask::empty(),
        }
    }

    fn settle<R: Wait>(
        &mut self,
        rt: &R,
        _alloc: Global,
        position: &Position,
        to_move: Colour,
    ) -> Result<Known, RanOut> {
        self.of_position(rt, position, to_move)
    }
}
