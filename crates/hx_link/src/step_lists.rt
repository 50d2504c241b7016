//! Lists of steps. Contracts see such a list as the list of its items.

ghost use Rattle.std.specs.Prelude.{◌≡◌};
ghost use Rattle.std.specs.Cmp.Lexicographic.{pointwise, lists_per, lists_equiv};
ghost use Rattle.hx_link.specs.contracts.steps.StepPartialEq.TheImpl.Laws.{laws-law as step_per};
ghost use Rattle.hx_link.specs.contracts.steps.StepEq.TheImpl.Laws.{laws-law as step_equiv};

use crate::steps::Step;
use std::marker::Model;

/// Steps in the order in which they are given, where each names those before it.
#[derive(Debug, Drop)]
pub struct Steps {
    items: Vec<Step>,
}

impl Model for Steps {
    ghost use Rattle.std.specs.Prelude.{List};
    ghost use Rattle.hx_link.specs.declared.steps.Step.{Step};

    ghost Value = { List Step };

    ghost view = { λ s. s.items.items };
}

impl Steps {
    /// The list of these steps.
    pub fn new(items: Vec<Step>) -> Steps
        ensures { result ≡ items.items }
    {
        Steps { items }
    }

    /// The steps, in their order.
    pub fn items(&self) -> &[Step]
        ensures { result.now ≡ self.now }
    {
        self.items.as_slice()
    }

    /// The vector of the steps.
    pub fn into_inner(self) -> Vec<Step>
        ensures { result.items ≡ self }
    {
        self.items
    }
}

impl PartialEq for Steps {
    ghost eq = { pointwise ⟦<Step as PartialEq>⟧.eq };

    ghost laws = { lists_per step_per };

    fn eq(&self, other: &Steps) -> bool {
        self.items() == other.items()
    }
}

impl Eq for Steps {
    ghost laws = { lists_equiv step_equiv };
}
