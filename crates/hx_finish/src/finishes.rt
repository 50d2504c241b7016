//! What a run comes to, and how it ends.

ghost use Rattle.std.specs.Prelude.{◌≡◌};
ghost use Rattle.hx_finish.specs.Wants.{no_refusal};

use hx_limits::{Settings, Tally};

/// The exit status of a run, and how many refusals of a unit and of a slot were counted.
#[derive(Debug, Drop)]
pub struct Finish {
    pub status: u8,
    pub tally: Tally,
}

/// What is to be said, and the refusals that stand behind it.
#[derive(Drop)]
pub struct Finding<A> {
    pub answer: A,
    pub tally: Tally,
}

impl<A> Finding<A> {
    /// An answer that no refusal stands behind.
    pub fn without_refusal(settings: Settings, answer: A) -> Finding<A>
        ensures answer { result.answer ≡ answer }
        ensures tally { result.tally ≡ no_refusal settings }
    {
        Finding {
            answer,
            tally: Tally::new(settings.budget, settings.slots),
        }
    }
}
