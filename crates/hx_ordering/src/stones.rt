//! The stones that come in a visit: the move that led to it, and what is filled in.

ghost use Rattle.std.specs.Prelude.{◌≡◌, ◌++◌, ◌∷◌, [], IfOk, MatchOption, OnOk};
ghost use Rattle.hx_board.specs.Positions.{IsEmpty, put};
ghost use Rattle.hx_ordering.specs.Stones.{stones_of_move, stones_of_step, stones_of_fills};

use crate::starts::Start;
use hx_board::{Cell, Colour, Memory};
use hx_fill::{Fill, Filled};
use hx_inferior::FillStep;
use hx_turn::Orientations;
use std::alloc::Global;

/// A stone that is put on a position: whose it is, and where.
pub type Stone = (Colour, Cell);

/// Room for the stones of most visits.
const FEW: usize = 8;

/// The position after a move. None where the cell holds a stone.
pub fn after(before: &Orientations, colour: Colour, cell: Cell) -> Option<Orientations>
    ensures { MatchOption result
        (¬ IsEmpty before.now cell)
        (λ next. IsEmpty before.now cell × (next ≡ put before.now colour cell)) }
{
    let is_empty = before.position().empties().has(cell);
    if is_empty {
        Some(before.with(colour, cell))
    } else {
        None
    }
}

/// The stones of a visit, the move first.
pub(crate) fn stones_of(alloc: Global, start: &Start, filled: &Filled) -> Result<Vec<Stone>, Memory>
    ensures { IfOk result (λ stones. stones.items
        ≡ stones_of_move start.now.moved start.now.to_move
        ++ stones_of_fills filled.now.steps.items) }
{
    let mut stones = Vec::with_capacity(alloc, FEW).map_err(|_| Memory)?;
    if let Some(cell) = start.moved {
        push(&mut stones, start.to_move.other(), cell)?;
    }
    for fill in filled.steps.as_slice() {
        push_fill(&mut stones, fill)?;
    }
    Ok(stones)
}

/// Adds the stones of one step of fill-in.
fn push_fill(stones: &mut Vec<Stone>, fill: &Fill) -> Result<(), Memory>
    ensures { OnOk result (stones.new.items
        ≡ stones.old.items ++ stones_of_step fill.now.colour fill.now.step) }
{
    let colour = fill.colour;
    match fill.step {
        FillStep::Dead(cell) | FillStep::Other(cell) => push(stones, colour, cell),
        FillStep::Pair(a, b) => {
            push(stones, colour, a)?;
            push(stones, colour, b)
        }
    }
}

fn push(stones: &mut Vec<Stone>, colour: Colour, cell: Cell) -> Result<(), Memory>
    ensures { OnOk result (stones.new.items ≡ stones.old.items ++ (colour, cell) ∷ []) }
{
    stones.push((colour, cell)).map_err(|_| Memory)
}
