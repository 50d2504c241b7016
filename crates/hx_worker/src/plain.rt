//! A list of plain proofs as a search asks it and adds to it. Each proof is of a position itself, so that a player can
//! be told by it what to play: nothing is filled in, and each move of the opponent has an answer.

ghost use Rattle.std.specs.Prelude.{◌≡◌};
ghost use Rattle.hx_board.specs.Colours.{other_of};
ghost use Rattle.hx_board.specs.Positions.{put};
ghost use Rattle.hx_nodes.specs.Stored.{HasEntry};
ghost use Rattle.hx_worker.specs.Forms.{HasWin};

use crate::each_move::{KnowsMoves, of_each_move};
use hx_board::{Cell, Colour, Mask, Memory, Position};
use hx_book::Proofs;
use hx_fill::{Filled, must_without_lines};
use hx_known::{Known, Knows, OfMoves};
use hx_limits::RanOut;
use hx_linkset::LinkSet;
use hx_nodes::{Stored, store_answers, store_chain, store_links, store_move};
use std::alloc::Global;
use std::sync::Wait;

/// Proofs of positions themselves are looked for and stored.
pub(crate) struct PlainProofs<'a, P> {
    proofs: &'a mut P,
}

impl<'a, P> PlainProofs<'a, P> {
    /// Whoever knows by these proofs.
    pub(crate) fn new(proofs: &'a mut P) -> PlainProofs<'a, P>
        ensures same { result.proofs.ghost_name ≡ proofs.entry.ghost_name }
        ensures now { result.proofs.now ≡ proofs.old }
    {
        PlainProofs { proofs }
    }
}

// It says what is left behind the borrow.
impl<'a, P> Drop for PlainProofs<'a, P> {
    fn drop(self)
        ensures { self.exit.0.now ≡ self.entry.proofs.now }
    {
        let Self { proofs: _ } = self;
    }
}

impl<P: Proofs> KnowsMoves for PlainProofs<'_, P> {
    ghost use Rattle.hx_known.specs.Views.{seen_behind};

    ghost view = { λ f. seen_behind (P.sight f.proofs.now) f.proofs.ghost_name };

    ghost won = { λ f board mover. HasEntry (P.sight f.proofs.now).list board mover };

    ghost lost = { λ f board mover cell. HasWin (P.sight f.proofs.now).list
        (put board mover cell) (other_of mover) (other_of mover) };

    fn win_by<R: Wait>(
        &mut self,
        rt: &R,
        _alloc: Global,
        position: &Position,
        to_move: Colour,
        cell: Cell,
    ) -> Result<Known, RanOut> {
        match store_move(rt, self.proofs, position, to_move, cell)? {
            Stored::Done => Ok(Known::Proved),
            Stored::Missing => Ok(Known::Nothing),
        }
    }

    fn lost_with<R: Wait>(
        &mut self,
        rt: &R,
        position: &Position,
        to_move: Colour,
        cell: Cell,
    ) -> Mask {
        let next = position.with(to_move, cell);
        let other = to_move.other();
        match self.proofs.look(rt, &next, other) {
            Some(found) if found.winner == other => Mask::empty().with(cell),
            _ => Mask::empty(),
        }
    }
}

impl<P: Proofs> Knows for PlainProofs<'_, P> {
    ghost use Rattle.hx_known.specs.Views.{seen_behind};

    ghost view = { λ f. seen_behind (P.sight f.proofs.now) f.proofs.ghost_name };

    ghost proved = { λ f board mover. HasEntry (P.sight f.proofs.now).list board mover };

    ghost settled = { λ f board mover. HasEntry (P.sight f.proofs.now).list board mover };

    ghost refuted = { λ f board mover cell. HasWin (P.sight f.proofs.now).list
        (put board mover cell) (other_of mover) (other_of mover) };

    fn tries_all(&self) -> bool {
        true
    }

    fn fill(&self, alloc: Global, position: &Position) -> Result<Filled, Memory> {
        Ok(Filled::none(alloc, position))
    }

    fn fill_for(
        &self,
        alloc: Global,
        position: &Position,
        _player: Colour,
    ) -> Result<Filled, Memory> {
        Ok(Filled::none(alloc, position))
    }

    fn of_position<R: Wait>(
        &mut self,
        rt: &R,
        position: &Position,
        to_move: Colour,
    ) -> Result<Known, RanOut> {
        match self.proofs.look(rt, position, to_move) {
            Some(_found) => Ok(Known::Proved),
            None => Ok(Known::Nothing),
        }
    }

    fn by_chain<R: Wait>(
        &mut self,
        rt: &R,
        position: &Position,
        to_move: Colour,
        winner: Colour,
    ) -> Result<(), RanOut> {
        store_chain(rt, self.proofs, position, to_move, winner)
    }

    fn by_link<R: Wait>(
        &mut self,
        rt: &R,
        set: &LinkSet,
        to_move: Colour,
        index: u32,
    ) -> Result<(), RanOut> {
        store_links(rt, self.proofs, set, to_move, index)
    }

    fn by_move<R: Wait>(
        &mut self,
        rt: &R,
        alloc: Global,
        position: &Position,
        to_move: Colour,
        cell: Cell,
    ) -> Result<Known, RanOut> {
        self.win_by(rt, alloc, position, to_move, cell)
    }

    fn of_moves<R: Wait>(
        &mut self,
        rt: &R,
        alloc: Global,
        position: &Position,
        to_move: Colour,
        order: &[Cell],
        cells: Mask,
    ) -> Result<OfMoves, RanOut> {
        of_each_move(self, rt, alloc, position, to_move, order, cells)
    }

    fn by_answers<R: Wait>(
        &mut self,
        rt: &R,
        set: &LinkSet,
        _order: &[Cell],
    ) -> Result<Known, RanOut> {
        // In a plain proof each move of the opponent has an answer, and no line names a better cell.
        let found = must_without_lines(set)?;
        match store_answers(rt, self.proofs, set, found)? {
            Stored::Done => Ok(Known::Proved),
            Stored::Missing => Ok(Known::Nothing),
        }
    }

    fn by_fill<R: Wait>(
        &mut self,
        rt: &R,
        _alloc: Global,
        position: &Position,
        to_move: Colour,
        _filled: &Filled,
    ) -> Result<Known, RanOut> {
        // Nothing is filled, so it is known or not of the position itself.
        self.of_position(rt, position, to_move)
    }

    fn refuted_with<R: Wait>(
        &mut self,
        rt: &R,
        position: &Position,
        to_move: Colour,
        cell: Cell,
    ) -> Mask {
        self.lost_with(rt, position, to_move, cell)
    }

    fn settle<R: Wait>(
        &mut self,
        rt: &R,
        _alloc: Global,
        position: &Position,
        to_move: Colour,
    ) -> Result<Known, RanOut> {
        self.of_position(rt, position, to_move)
    }
}
