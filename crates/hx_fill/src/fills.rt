//! What fill-in leaves behind: the steps that were done and the position after them.
//!
//! A fill has a player, so the fills are a vector of their own and no list of a rule, whose fill steps are all for
//! one winner. `steps_for` gives them, as the list that `Rule::Fill` holds.

ghost use Rattle.std.specs.Prelude.{◌≡◌, [], OnOk};
ghost use Rattle.hx_inferior.specs.Inferior.{MayFill};
ghost use Rattle.hx_fill.specs.Fills.{IsFillIn};
ghost use Rattle.hx_fill.specs.Rounds.{DoesStep};

use hx_board::{Colour, Memory, Position};
use hx_inferior::{FillStep, after_fill};
use std::alloc::Global;

/// One step of fill-in, and the player whose stones it puts.
#[derive(Clone, Copy, PartialEq, Eq, Debug)]
pub struct Fill {
    /// The player for whom the step is right, whoever wins: its cells are dead or a captured pair for that player.
    pub colour: Colour,

    /// The step.
    pub step: FillStep,
}

/// A position after some steps, and these steps in the order in which they were done.
#[derive(Drop)]
pub struct Filled {
    /// The position after the last step.
    pub position: Position,

    /// The steps, the first one first.
    pub steps: Vec<Fill>,
}

impl Filled {
    /// A position in which nothing is filled.
    pub fn none(alloc: Global, position: &Position) -> Filled
        ensures position { result.position ≡ position.now }
        ensures steps { result.steps.items ≡ [] }
        ensures fills { IsFillIn position.now result.steps.items result.position }
    {
        Filled {
            position: *position,
            steps: Vec::new(alloc),
        }
    }

    /// Does a step that is right for the player.
    pub(crate) fn add(&mut self, colour: Colour, step: FillStep) -> Result<(), Memory>
        requires { MayFill self.old.position colour step }
        ensures { OnOk result (DoesStep colour step
            self.old.position self.old.steps.items self.new.position self.new.steps.items) }
    {
        if self.steps.reserve(1).is_err() {
            return Err(Memory);
        }
        self.position = after_fill(&self.position, colour, &step);
        self.steps.push_reserved(Fill { colour, step });
        Ok(())
    }
}
