//! What is known of moves, asked one after the other.
//!
//! Who asks is a method of a form's that `Knows` wants, and a proof of it may not rest on that trait: so the loop asks
//! by a trait of its own, in which there is one move at a time.

ghost use Rattle.std.specs.Prelude.{◌≡◌, ℕ, true, IfOk, IfErr};
ghost use Rattle.hx_board.specs.declared.colours.Colour.{Colour};
ghost use Rattle.hx_board.specs.Positions.{Board, IsEmpty};
ghost use Rattle.hx_board.specs.Sets.{has};
ghost use Rattle.hx_known.specs.Views.{View, Goes, IfProved, LacksRoom};

use hx_board::{Cell, Colour, Mask, Position};
use hx_known::{Known, OfMoves};
use hx_limits::RanOut;
use std::alloc::Global;
use std::sync::Wait;

/// Whoever knows of a move whether it wins, and by what it loses.
pub(crate) trait KnowsMoves {
    /// What was seen, and the borrows behind which it is.
    ghost view: { Self → View };

    /// It is known who wins the position with this player to move.
    ghost won: { Self → Board → Colour → Type 0 };

    /// It is known that the opponent wins after the player's move to the cell.
    ghost lost: { Self → Board → Colour → ℕ → Type 0 };

    /// The player to move wins by a move, where it is known that this player wins after it.
    fn win_by<R: Wait>(
        &mut self,
        rt: &R,
        alloc: Global,
        position: &Position,
        to_move: Colour,
        cell: Cell,
    ) -> Result<Known, RanOut>
        requires { IsEmpty position.now cell }
        ensures goes { Goes (view self.old) (view self.new) }
        ensures known { IfOk result (IfProved (won self.new position.now to_move)) }
        ensures stopped { IfErr result (LacksRoom (view self.new)) };

    /// The moves that lose by what is known against this one, itself among them. No cell where nothing is known against
    /// it.
    fn lost_with<R: Wait>(
        &mut self,
        rt: &R,
        position: &Position,
        to_move: Colour,
        cell: Cell,
    ) -> Mask
        requires { IsEmpty position.now cell }
        ensures goes { Goes (view self.old) (view self.new) }
        ensures lost { (cell : ℕ) → has result cell ≡ true
            → lost self.new position.now to_move cell };
}

/// The lost moves, with those that lose with a move, where that move is not among them.
fn with_lost<K: KnowsMoves, R: Wait>(
    known: &mut K,
    rt: &R,
    position: &Position,
    to_move: Colour,
    cell: Cell,
    lost: Mask,
) -> Mask
    ensures goes { Goes (K.view known.old) (K.view known.new) }
{
    let is_empty = position.empties().has(cell);
    if !is_empty || lost.has(cell) {
        return lost;
    }
    lost.union(known.lost_with(rt, position, to_move, cell))
}

/// Whether the player to move is known to win by a move.
fn wins_by<K: KnowsMoves, R: Wait>(
    known: &mut K,
    rt: &R,
    alloc: Global,
    position: &Position,
    to_move: Colour,
    cell: Cell,
) -> Result<Known, RanOut>
    ensures goes { Goes (K.view known.old) (K.view known.new) }
    ensures known { IfOk result (IfProved (K.won known.new position.now to_move)) }
    ensures stopped { IfErr result (LacksRoom (K.view known.new)) }
{
    let is_empty = position.empties().has(cell);
    if !is_empty {
        return Ok(Known::Nothing);
    }
    known.win_by(rt, alloc, position, to_move, cell)
}

/// Asks about each move to one of these cells, the last one in the order first. A move that wins ends it.
pub(crate) fn of_each_move<K: KnowsMoves, R: Wait>(
    known: &mut K,
    rt: &R,
    alloc: Global,
    position: &Position,
    to_move: Colour,
    order: &[Cell],
    cells: Mask,
) -> Result<OfMoves, RanOut>
    ensures goes { Goes (K.view known.old) (K.view known.new) }
    ensures known { IfOk result
        (λ moves. IfProved (K.won known.new position.now to_move) moves.known) }
    ensures stopped { IfErr result (LacksRoom (K.view known.new)) }
{
    let mut lost = Mask::empty();
    let mut refuted = Mask::empty();
    let mut left = order.len();
    while left > 0 {
        left -= 1;
        let Some(cell) = order.get(left).copied() else {
            break;
        };
        if !cells.has(cell) {
            continue;
        }
        if let Known::Proved = wins_by(known, rt, alloc, position, to_move, cell)? {
            return Ok(OfMoves {
                known: Known::Proved,
                refuted,
            });
        }
        lost = with_lost(known, rt, position, to_move, cell, lost);
        if lost.has(cell) {
            refuted = refuted.with(cell);
        }
    }
    Ok(OfMoves {
        known: Known::Nothing,
        refuted,
    })
}
