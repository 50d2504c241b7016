//! How many refusals of a unit and of a slot were counted.
//!
//! A refusal is made where a unit or a slot is refused, and nowhere else, and nobody can copy it. A tally takes in the
//! refusals that it counts, so each is counted once.

ghost use Rattle.std.specs.Prelude.{◌≡◌};
ghost use Rattle.hx_limits.specs.Tallies.{tallied, counting, IsCountedBy, NoCountFalls};

use crate::ran_out::RanOut;
use std::marker::Model;

/// The counts of refusals by one budget and by so many slots. A count stays at its highest number, 2^64 - 1.
#[derive(Debug, Drop)]
pub struct Tally {
    budget: u64,
    slots: u32,
    budgets: u64,
    proofs: u64,
}

impl Model for Tally {
    ghost use Rattle.hx_limits.specs.Tallies.{Tallied, tallied};

    ghost Value = { Tallied };

    ghost view = { λ t. tallied t.budget t.slots t.budgets t.proofs };
}

impl Tally {
    /// No refusal is counted yet.
    pub fn new(budget: u64, slots: u32) -> Tally
        ensures { result ≡ tallied budget slots 0 0 }
    {
        Tally {
            budget,
            slots,
            budgets: 0,
            proofs: 0,
        }
    }

    /// Counts the refusal of a unit of this budget, or of one of these slots.
    pub fn add(&mut self, refusal: RanOut)
        requires { IsCountedBy self.old refusal }
        ensures counted { self.new ≡ counting refusal self.old }
        ensures later { NoCountFalls self.old self.new }
    {
        match refusal {
            RanOut::Budget(_) => self.budgets = self.budgets.saturating_add(1),
            RanOut::Slots(_) => self.proofs = self.proofs.saturating_add(1),
            RanOut::Memory => unreachable!(),
        }
    }

    /// How often a unit was refused.
    pub fn budgets(&self) -> u64
        ensures { result ≡ self.now.budgets }
    {
        self.budgets
    }

    /// How often a slot was refused.
    pub fn proofs(&self) -> u64
        ensures { result ≡ self.now.proofs }
    {
        self.proofs
    }
}
