//! One step tried. A step whose link is covered, or that gives none, stays so as links are added: no step of links that
//! are there has to be tried a second time.

ghost use Rattle.std.specs.Prelude.{◌≡◌, IfOk};
ghost use Rattle.hx_reach.specs.Growth.{IsGrown};
ghost use Rattle.hx_search.specs.Progress.{IsTriedStep, tried_by};

use hx_board::Memory;
use hx_link::Step;
use hx_linkset::{Added, LinkSet};

/// What became of steps that were tried.
#[derive(Clone, Copy)]
pub(crate) enum Tried {
    /// What they give is covered.
    Settled,

    /// The set was full before that.
    Stopped,
}

/// Tries a step.
pub(crate) fn settle(set: &mut LinkSet, step: Step) -> Result<Tried, Memory>
    ensures grown { IsGrown set.old set.new }
    ensures tried { IfOk result (IsTriedStep set.new step) }
{
    match set.add(step) {
        Ok(added) => Ok(tried_by(added)),
        Err(Memory) => Err(Memory),
    }
}

/// What became of the step that the set answered this.
fn tried_by(added: Added) -> Tried
    ensures { result ≡ tried_by added }
{
    match added {
        Added::New(_) | Added::Covered(_) | Added::Refused => Tried::Settled,
        Added::Limit => Tried::Stopped,
    }
}
