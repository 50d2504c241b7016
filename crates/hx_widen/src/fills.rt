//! Proofs by what fill-in leaves, which need the cells that were filled for the winner, and what the proof after it
//! needs. The opponent's stones of fill-in stay.

ghost use Rattle.std.specs.Prelude.{IfOk, IfErr};
ghost use Rattle.hx_board.specs.Positions.{Board};
ghost use Rattle.hx_fill.specs.Fills.{IsFillIn};
ghost use Rattle.hx_book.specs.WiderEntry.{IsWiderFound};
ghost use Rattle.hx_book.specs.Sights.{Grows};
ghost use Rattle.hx_limits.specs.Causes.{IsUnstored};
ghost use Rattle.hx_widen.specs.Wide.{IsServedIf};

use crate::widened::lifted;
use crate::wider::{end_of, fill_missing, fill_to, look_wider_either};
use hx_board::{Colour, Mask, Memory, Position};
use hx_book::{Proofs, Wider};
use hx_fill::{Fill, Filled};
use hx_inferior::FillStep;
use hx_limits::RanOut;
use hx_nodes::{Stored, store_fill};
use hx_tree::FillSteps;
use std::alloc::Global;
use std::sync::Wait;

/// A step's cells.
fn cells_of(step: &FillStep) -> Mask {
    match step {
        FillStep::Dead(cell) | FillStep::Other(cell) => Mask::empty().with(*cell),
        FillStep::Pair(a, b) => Mask::empty().with(*a).with(*b),
    }
}

/// The steps of a player among those of fill-in.
fn own_steps(alloc: Global, fills: &[Fill], player: Colour) -> Result<Vec<FillStep>, Memory> {
    let mut steps = Vec::new(alloc);
    for fill in fills {
        if fill.colour == player && steps.push(fill.step).is_err() {
            return Err(Memory);
        }
    }
    Ok(steps)
}

/// The cells of steps.
fn all_cells(steps: &[FillStep]) -> Mask {
    let mut cells = Mask::empty();
    for step in steps {
        cells = cells.union(cells_of(step));
    }
    cells
}

/// Stores the winner's own steps where the opponent has all cells that an entry that serves a position after them does
/// not need.
fn fill_wide<P: Proofs, R: Wait>(
    rt: &R,
    alloc: Global,
    proofs: &mut P,
    to_move: Colour,
    fills: &[Fill],
    wider: &Wider,
) -> Result<(), RanOut>
    requires { (board : Board) × IsWiderFound P.is_plain (P.sight proofs.old).list board to_move
        wider.now.found.winner wider.now }
    ensures grew { Grows (P.sight proofs.old) (P.sight proofs.new) }
    ensures stopped { IfErr result (IsUnstored (P.sight proofs.new)) }
{
    let winner = wider.found.winner;
    let steps = own_steps(alloc, fills, winner)?;
    if steps.is_empty() {
        return Ok(());
    }
    let Some(wide) = lifted(&wider.position, winner, all_cells(steps.as_slice())) else {
        return Ok(());
    };
    let steps = FillSteps::new(steps);
    fill_to(rt, alloc, proofs, &wide, wider, to_move, steps)?;
    Ok(())
}

/// Stores who wins a position, where an entry that serves the position after fill-in says who wins that: a proof that
/// serves the position, or one of the position itself. It is Missing where no entry serves the filled position, where
/// nothing was filled, or where the list is plain.
pub fn widen_fill<P: Proofs, R: Wait>(
    rt: &R,
    alloc: Global,
    proofs: &mut P,
    position: &Position,
    to_move: Colour,
    filled: &Filled,
) -> Result<Stored, RanOut>
    requires { IsFillIn position.now filled.now.steps.items filled.now.position }
    ensures grew { Grows (P.sight proofs.old) (P.sight proofs.new) }
    ensures served { IfOk result (IsServedIf P.is_plain (P.sight proofs.new).list position.now
        to_move) }
    ensures stopped { IfErr result (IsUnstored (P.sight proofs.new)) }
{
    let Some(wider) = look_wider_either(rt, proofs, &filled.position, to_move) else {
        return Ok(Stored::Missing);
    };
    let fills = filled.steps.as_slice();
    let tried = fill_wide(rt, alloc, proofs, to_move, fills, &wider);
    if let Stored::Done = end_of(rt, proofs, position, to_move, tried)? {
        return Ok(Stored::Done);
    }
    fill_missing(rt, alloc, proofs, &filled.position, &wider, to_move)?;
    store_fill(rt, alloc, proofs, position, to_move, filled)
}
