//! Laws of what a worker holds. The functions do nothing; what they say stands in their contracts.

ghost use Rattle.std.specs.Prelude.{◌≡◌, ◌+◌, ◌≤◌, ℕ};
ghost use Rattle.hx_count.specs.Machine.{Account, holding, releasing, held_in_all};

/// A release takes back a hold of the same word. Where the worker spent units between the two, it holds each word as
/// often as before.
pub fn release_takes_back()
    ensures whole { (word : ℕ) (a : Account) → releasing word (holding word a) ≡ a }
    ensures held { (word : ℕ) (a later : Account) → later.held ≡ (holding word a).held
        → (releasing word later).held ≡ a.held }
{}

/// A hold adds one at the most to what a worker holds in all.
pub fn hold_adds_one()
    ensures { (word : ℕ) (a : Account) → held_in_all (holding word a) ≤ held_in_all a + 1 }
{}
