//! What a search asks of whoever knows.
//!
//! Each call has one contract: what was seen only grew, and what was answered is true of it. What it is that a position
//! is known by, each type says: an entry of the position itself, or one that serves it, or whatever else.

ghost use Rattle.std.specs.Prelude.{◌≡◌, ℕ, true, IfOk, IfErr};
ghost use Rattle.hx_board.specs.declared.colours.Colour.{Colour};
ghost use Rattle.hx_board.specs.Colours.{other_of};
ghost use Rattle.hx_board.specs.Graph.{HasChain};
ghost use Rattle.hx_board.specs.Positions.{Board, IsEmpty};
ghost use Rattle.hx_board.specs.Sets.{has};
ghost use Rattle.hx_fill.specs.Fills.{IsFillIn};
ghost use Rattle.hx_linkset.specs.LiveOf.{Decides};
ghost use Rattle.hx_known.specs.Views.{View, Goes, IfProved, LacksRoom};

use hx_board::{Cell, Colour, Mask, Memory, Position};
use hx_fill::Filled;
use hx_limits::RanOut;
use hx_linkset::LinkSet;
use std::alloc::Global;
use std::sync::Wait;

/// What is known of a position.
#[derive(Clone, Copy, PartialEq, Eq, Debug)]
pub enum Known {
    /// Who wins it.
    Proved,

    /// Nothing yet.
    Nothing,
}

/// What is known of moves.
#[derive(Clone, Copy, PartialEq, Eq, Debug)]
pub struct OfMoves {
    /// Whether one of them wins. Then it is known that their mover wins the position.
    pub known: Known,

    /// Those that lose.
    pub refuted: Mask,
}

/// Whoever knows of positions who wins them, and learns it from what a search finds. Others may teach the same one at
/// any time.
pub trait Knows {
    /// What was seen, and the borrows behind which it is.
    ghost view: { Self → View };

    /// It is known who wins the position with this player to move.
    ghost proved: { Self → Board → Colour → Type 0 };

    /// It is known of the position itself, and not by another one that serves it.
    ghost settled: { Self → Board → Colour → Type 0 };

    /// It is known that the opponent wins after the player's move to the cell.
    ghost refuted: { Self → Board → Colour → ℕ → Type 0 };

    /// Whether a move is tried though another one is better, since each move of the opponent has to be answered.
    fn tries_all(&self) -> bool;

    /// The position after fill-in, as far as a position is known by what is known after it.
    fn fill(&self, alloc: Global, position: &Position) -> Result<Filled, Memory>
        ensures { IfOk result (λ filled.
            IsFillIn position.now filled.steps.items filled.position) };

    /// The position after fill-in for one player alone, as far as a position is known by what is known after it.
    fn fill_for(&self, alloc: Global, position: &Position, player: Colour) -> Result<Filled, Memory>
        ensures { IfOk result (λ filled.
            IsFillIn position.now filled.steps.items filled.position) };

    /// What is known of a position.
    fn of_position<R: Wait>(
        &mut self,
        rt: &R,
        position: &Position,
        to_move: Colour,
    ) -> Result<Known, RanOut>
        ensures goes { Goes (view self.old) (view self.new) }
        ensures known { IfOk result (IfProved (proved self.new position.now to_move)) }
        ensures stopped { IfErr result (LacksRoom (view self.new)) };

    /// A player has a chain.
    fn by_chain<R: Wait>(
        &mut self,
        rt: &R,
        position: &Position,
        to_move: Colour,
        winner: Colour,
    ) -> Result<(), RanOut>
        requires { HasChain position.now winner }
        ensures goes { Goes (view self.old) (view self.new) }
        ensures known { IfOk result (λ _. proved self.new position.now to_move) }
        ensures stopped { IfErr result (LacksRoom (view self.new)) };

    /// A link of a player's set decides its position.
    fn by_link<R: Wait>(
        &mut self,
        rt: &R,
        set: &LinkSet,
        to_move: Colour,
        index: u32,
    ) -> Result<(), RanOut>
        requires { Decides set.now to_move index }
        ensures goes { Goes (view self.old) (view self.new) }
        ensures known { IfOk result (λ _. proved self.new set.now.present.board to_move) }
        ensures stopped { IfErr result (LacksRoom (view self.new)) };

    /// The player to move wins by a move, where it is known that this player wins after it.
    fn by_move<R: Wait>(
        &mut self,
        rt: &R,
        alloc: Global,
        position: &Position,
        to_move: Colour,
        cell: Cell,
    ) -> Result<Known, RanOut>
        requires { IsEmpty position.now cell }
        ensures goes { Goes (view self.old) (view self.new) }
        ensures known { IfOk result (IfProved (proved self.new position.now to_move)) }
        ensures stopped { IfErr result (LacksRoom (view self.new)) };

    /// What is known of the moves to these cells, before any of them is made. Those that come last in the order are
    /// asked about first.
    fn of_moves<R: Wait>(
        &mut self,
        rt: &R,
        alloc: Global,
        position: &Position,
        to_move: Colour,
        order: &[Cell],
        cells: Mask,
    ) -> Result<OfMoves, RanOut>
        ensures goes { Goes (view self.old) (view self.new) }
        ensures known { IfOk result
            (λ moves. IfProved (proved self.new position.now to_move) moves.known) }
        ensures stopped { IfErr result (LacksRoom (view self.new)) };

    /// The player of a set wins with the opponent to move, where that is known after each move that must be tried.
    /// Better cells are looked for in this order.
    fn by_answers<R: Wait>(
        &mut self,
        rt: &R,
        set: &LinkSet,
        order: &[Cell],
    ) -> Result<Known, RanOut>
        ensures goes { Goes (view self.old) (view self.new) }
        ensures known { IfOk result
            (IfProved (proved self.new set.now.present.board (other_of set.now.player))) }
        ensures stopped { IfErr result (LacksRoom (view self.new)) };

    /// What is known after fill-in is known before it.
    fn by_fill<R: Wait>(
        &mut self,
        rt: &R,
        alloc: Global,
        position: &Position,
        to_move: Colour,
        filled: &Filled,
    ) -> Result<Known, RanOut>
        requires { IsFillIn position.now filled.now.steps.items filled.now.position }
        ensures goes { Goes (view self.old) (view self.new) }
        ensures known { IfOk result (IfProved (proved self.new position.now to_move)) }
        ensures stopped { IfErr result (LacksRoom (view self.new)) };

    /// The moves that lose by what is known against this one, itself among them. No cell where nothing is known against
    /// it.
    fn refuted_with<R: Wait>(
        &mut self,
        rt: &R,
        position: &Position,
        to_move: Colour,
        cell: Cell,
    ) -> Mask
        requires { IsEmpty position.now cell }
        ensures goes { Goes (view self.old) (view self.new) }
        ensures refuted { (cell : ℕ) → has result cell ≡ true
            → refuted self.new position.now to_move cell };

    /// What is known of a search's own position, and of that position itself where anything is.
    fn settle<R: Wait>(
        &mut self,
        rt: &R,
        alloc: Global,
        position: &Position,
        to_move: Colour,
    ) -> Result<Known, RanOut>
        ensures goes { Goes (view self.old) (view self.new) }
        ensures settled { IfOk result (IfProved (settled self.new position.now to_move)) }
        ensures stopped { IfErr result (LacksRoom (view self.new)) };
}
