//! The lists of threats and of fill steps that a rule holds. Contracts see each as the list of its items.

ghost use Rattle.std.specs.Prelude.{◌≡◌, nat_eq};
ghost use Rattle.std.specs.Cmp.{partial_equiv_from_equiv};
ghost use Rattle.std.specs.Cmp.Lexicographic.{pointwise, lists_per, lists_equiv, nat_list_eq_equiv};
ghost use Rattle.hx_inferior.specs.contracts.fills.FillStepPartialEq.TheImpl.Laws.{laws-law as fill_step_per};
ghost use Rattle.hx_inferior.specs.contracts.fills.FillStepEq.TheImpl.Laws.{laws-law as fill_step_equiv};

use hx_inferior::FillStep;
use std::marker::Model;

/// The places of a node's threats among its steps, in the order in which they are given.
#[derive(Debug, Drop)]
pub struct Threats {
    places: Vec<u32>,
}

impl Model for Threats {
    ghost use Rattle.std.specs.Prelude.{List, ℕ};

    ghost Value = { List ℕ };

    ghost view = { λ t. t.places.items };
}

impl Threats {
    /// The list of these places.
    pub fn new(places: Vec<u32>) -> Threats
        ensures { result ≡ places.items }
    {
        Threats { places }
    }

    /// The places, in their order.
    pub fn items(&self) -> &[u32]
        ensures { result.now ≡ self.now }
    {
        self.places.as_slice()
    }

    /// The vector of the places.
    pub fn into_inner(self) -> Vec<u32>
        ensures { result.items ≡ self }
    {
        self.places
    }
}

impl PartialEq for Threats {
    ghost eq = { pointwise nat_eq };

    ghost laws = { partial_equiv_from_equiv nat_list_eq_equiv };

    fn eq(&self, other: &Threats) -> bool {
        self.items() == other.items()
    }
}

impl Eq for Threats {
    ghost laws = { nat_list_eq_equiv };
}

/// The fill steps of a node, in the order in which they are done.
#[derive(Debug, Drop)]
pub struct FillSteps {
    items: Vec<FillStep>,
}

impl Model for FillSteps {
    ghost use Rattle.std.specs.Prelude.{List};
    ghost use Rattle.hx_inferior.specs.declared.fills.FillStep.{FillStep};

    ghost Value = { List FillStep };

    ghost view = { λ s. s.items.items };
}

impl FillSteps {
    /// The list of these steps.
    pub fn new(items: Vec<FillStep>) -> FillSteps
        ensures { result ≡ items.items }
    {
        FillSteps { items }
    }

    /// The steps, in their order.
    pub fn items(&self) -> &[FillStep]
        ensures { result.now ≡ self.now }
    {
        self.items.as_slice()
    }

    /// The vector of the steps.
    pub fn into_inner(self) -> Vec<FillStep>
        ensures { result.items ≡ self }
    {
        self.items
    }
}

impl PartialEq for FillSteps {
    ghost eq = { pointwise ⟦<FillStep as PartialEq>⟧.eq };

    ghost laws = { lists_per fill_step_per };

    fn eq(&self, other: &FillSteps) -> bool {
        self.items() == other.items()
    }
}

impl Eq for FillSteps {
    ghost laws = { lists_equiv fill_step_equiv };
}
