//! A list of proofs as a search asks it and adds to it, where a proof may serve many positions: it is stored where the
//! opponent has all cells that it does not need, and looked for where the opponent has more stones.

ghost use Rattle.std.specs.Prelude.{◌≡◌};
ghost use Rattle.hx_board.specs.Colours.{other_of};
ghost use Rattle.hx_board.specs.Positions.{put};
ghost use Rattle.hx_nodes.specs.Stored.{HasEntry};
ghost use Rattle.hx_widen.specs.Wide.{IsServed};
ghost use Rattle.hx_worker.specs.Forms.{IsServedAs};

use crate::each_move::{KnowsMoves, of_each_move};
use hx_board::{Cell, Colour, Mask, Memory, Position};
use hx_book::Proofs;
use hx_fill::{Filled, fill_in, fill_in_for};
use hx_known::{Known, Knows, OfMoves};
use hx_limits::RanOut;
use hx_linkset::LinkSet;
use hx_nodes::Stored;
use hx_widen::{
    look_wider_either, store_wider, widen_all, widen_chain, widen_fill, widen_links, widen_move,
    widen_turned,
};
use std::alloc::Global;
use std::sync::Wait;

/// Proofs of wider positions are looked for and stored. It is for lists that are not plain: in a plain one it stores
/// less.
pub(crate) struct WideProofs<'a, P> {
    proofs: &'a mut P,
}

impl<'a, P> WideProofs<'a, P> {
    /// Whoever knows by these proofs.
    pub(crate) fn new(proofs: &'a mut P) -> WideProofs<'a, P>
        ensures same { result.proofs.ghost_name ≡ proofs.entry.ghost_name }
        ensures now { result.proofs.now ≡ proofs.old }
    {
        WideProofs { proofs }
    }
}

// It says what is left behind the borrow.
impl<'a, P> Drop for WideProofs<'a, P> {
    fn drop(self)
        ensures { self.exit.0.now ≡ self.entry.proofs.now }
    {
        let Self { proofs: _ } = self;
    }
}

impl<P: Proofs> KnowsMoves for WideProofs<'_, P> {
    ghost use Rattle.hx_known.specs.Views.{seen_behind};

    ghost view = { λ f. seen_behind (P.sight f.proofs.now) f.proofs.ghost_name };

    ghost won = { λ f board mover. IsServed P.is_plain (P.sight f.proofs.now).list board mover };

    ghost lost = { λ f board mover cell. IsServedAs P.is_plain (P.sight f.proofs.now).list
        (put board mover cell) (other_of mover) (other_of mover) };

    fn win_by<R: Wait>(
        &mut self,
        rt: &R,
        alloc: Global,
        position: &Position,
        to_move: Colour,
        cell: Cell,
    ) -> Result<Known, RanOut> {
        match widen_move(rt, alloc, self.proofs, position, to_move, cell)? {
            Stored::Done => Ok(Known::Proved),
            Stored::Missing => Ok(Known::Nothing),
        }
    }

    fn lost_with<R: Wait>(
        &mut self,
        rt: &R,
        position: &Position,
        to_move: Colour,
        cell: Cell,
    ) -> Mask {
        let next = position.with(to_move, cell);
        let other = to_move.other();
        match self.proofs.look_wider(rt, &next, other, other) {
            Some(wider) => position.empties().minus(wider.position.empties()),
            None => Mask::empty(),
        }
    }
}

impl<P: Proofs> Knows for WideProofs<'_, P> {
    ghost use Rattle.hx_known.specs.Views.{seen_behind};

    ghost view = { λ f. seen_behind (P.sight f.proofs.now) f.proofs.ghost_name };

    ghost proved = { λ f board mover. IsServed P.is_plain (P.sight f.proofs.now).list board mover };

    ghost settled = { λ f board mover. HasEntry (P.sight f.proofs.now).list board mover };

    ghost refuted = { λ f board mover cell. IsServedAs P.is_plain (P.sight f.proofs.now).list
        (put board mover cell) (other_of mover) (other_of mover) };

    fn tries_all(&self) -> bool {
        false
    }

    fn fill(&self, alloc: Global, position: &Position) -> Result<Filled, Memory> {
        fill_in(alloc, position)
    }

    fn fill_for(
        &self,
        alloc: Global,
        position: &Position,
        player: Colour,
    ) -> Result<Filled, Memory> {
        fill_in_for(alloc, position, player)
    }

    fn of_position<R: Wait>(
        &mut self,
        rt: &R,
        position: &Position,
        to_move: Colour,
    ) -> Result<Known, RanOut> {
        match widen_turned(rt, self.proofs, position, to_move)? {
            Stored::Done => Ok(Known::Proved),
            Stored::Missing => Ok(Known::Nothing),
        }
    }

    fn by_chain<R: Wait>(
        &mut self,
        rt: &R,
        position: &Position,
        to_move: Colour,
        winner: Colour,
    ) -> Result<(), RanOut> {
        widen_chain(rt, self.proofs, position, to_move, winner)
    }

    fn by_link<R: Wait>(
        &mut self,
        rt: &R,
        set: &LinkSet,
        to_move: Colour,
        index: u32,
    ) -> Result<(), RanOut> {
        widen_links(rt, self.proofs, set, to_move, index)
    }

    fn by_move<R: Wait>(
        &mut self,
        rt: &R,
        alloc: Global,
        position: &Position,
        to_move: Colour,
        cell: Cell,
    ) -> Result<Known, RanOut> {
        self.win_by(rt, alloc, position, to_move, cell)
    }

    fn of_moves<R: Wait>(
        &mut self,
        rt: &R,
        alloc: Global,
        position: &Position,
        to_move: Colour,
        order: &[Cell],
        cells: Mask,
    ) -> Result<OfMoves, RanOut> {
        of_each_move(self, rt, alloc, position, to_move, order, cells)
    }

    fn by_answers<R: Wait>(
        &mut self,
        rt: &R,
        set: &LinkSet,
        order: &[Cell],
    ) -> Result<Known, RanOut> {
        match widen_all(rt, self.proofs, set, order)? {
            Stored::Done => Ok(Known::Proved),
            Stored::Missing => Ok(Known::Nothing),
        }
    }

    fn by_fill<R: Wait>(
        &mut self,
        rt: &R,
        alloc: Global,
        position: &Position,
        to_move: Colour,
        filled: &Filled,
    ) -> Result<Known, RanOut> {
        match widen_fill(rt, alloc, self.proofs, position, to_move, filled)? {
            Stored::Done => Ok(Known::Proved),
            Stored::Missing => Ok(Known::Nothing),
        }
    }

    fn refuted_with<R: Wait>(
        &mut self,
        rt: &R,
        position: &Position,
        to_move: Colour,
        cell: Cell,
    ) -> Mask {
        self.lost_with(rt, position, to_move, cell)
    }

    fn settle<R: Wait>(
        &mut self,
        rt: &R,
        alloc: Global,
        position: &Position,
        to_move: Colour,
    ) -> Result<Known, RanOut> {
        let Some(wider) = look_wider_either(rt, self.proofs, position, to_move) else {
            return Ok(Known::Nothing);
        };
        let winner = wider.found.winner;
        match store_wider(rt, alloc, self.proofs, position, to_move, winner)? {
            Stored::Done => Ok(Known::Proved),
            Stored::Missing => Ok(Known::Nothing),
        }
    }
}
