//! The steps of fill-in, as a proof that one player wins may make them.
//!
//! For the winner the own dead cells and pairs are steps of such a proof as they are. The other player's are the
//! opponent's stones on empty cells, which may come one by one.

ghost use Rattle.std.specs.Prelude.{◌≡◌, ◌∷◌, ◌++◌, [], ◌↔◌, IfOk, OnOk};
ghost use Rattle.hx_board.specs.Positions.{Board};
ghost use Rattle.hx_tree.specs.Fills.{MayFillAll, filled_all};
ghost use Rattle.hx_fill.specs.Fills.{AreDeadOrPairs, FillsTo, winner_steps, winner_steps_all};

use crate::fills::{Fill, Filled};
use hx_board::{Colour, Memory};
use hx_inferior::FillStep;
use hx_tree::FillSteps;
use std::alloc::Global;

/// The steps as those of a proof that this player wins: the player's own as they are, and the stones of the opponent's
/// cell by cell. From each position from which the steps are right for their own players, these are right for the
/// winner, and lead to the same position. There are none exactly where nothing was filled.
pub fn steps_for(alloc: Global, filled: &Filled, winner: Colour) -> Result<FillSteps, Memory>
    requires { AreDeadOrPairs filled.now.steps.items }
    ensures steps { IfOk result (λ steps. steps ≡ winner_steps_all winner filled.now.steps.items) }
    ensures right { IfOk result (λ steps. (board final : Board)
        → FillsTo board filled.now.steps.items final
        → MayFillAll board winner steps × (filled_all board winner steps ≡ final)) }
    ensures none { IfOk result (λ steps. (steps ≡ []) ↔ (filled.now.steps.items ≡ [])) }
{
    let mut steps = Vec::new(alloc);
    for fill in filled.steps.as_slice() {
        push_steps(&mut steps, fill, winner)?;
    }
    Ok(FillSteps::new(steps))
}

/// Adds the steps for one fill.
fn push_steps(steps: &mut Vec<FillStep>, fill: &Fill, winner: Colour) -> Result<(), Memory>
    ensures { OnOk result (steps.new.items
        ≡ steps.old.items ++ winner_steps winner fill.now.colour fill.now.step) }
{
    if fill.colour == winner {
        return push(steps, fill.step);
    }
    match fill.step {
        FillStep::Dead(cell) => push(steps, FillStep::Other(cell)),
        FillStep::Pair(a, b) => {
            push(steps, FillStep::Other(a))?;
            push(steps, FillStep::Other(b))
        }
        FillStep::Other(_) => Ok(()),
    }
}

fn push(steps: &mut Vec<FillStep>, step: FillStep) -> Result<(), Memory>
    ensures { OnOk result (steps.new.items ≡ steps.old.items ++ step ∷ []) }
{
    steps.push(step).map_err(|_| Memory)
}
