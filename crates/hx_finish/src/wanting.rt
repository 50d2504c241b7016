//! What is told where a search came to no answer: the text, the exit status, and the refusal that stands behind it.

ghost use Rattle.std.specs.Prelude.{◌≡◌};
ghost use Rattle.hx_io.specs.Sinks.{WritesAll};
ghost use Rattle.hx_limits.specs.Causes.{HasCause};
ghost use Rattle.hx_finish.specs.Wants.{wanting_text, wanting_status, wanting_tally, Tells};

use crate::finishes::Finding;
use hx_answers::{
    OUT_OF_MEMORY, UNKNOWN, write_out_of_memory, write_unknown_budget, write_unknown_proofs,
};
use hx_io::{Failed, Sink};
use hx_limits::{RanOut, Settings, Tally};

/// What was wanting where a search came to no answer, as it is told.
#[derive(Clone, Copy, Debug, Drop, PartialEq, Eq)]
pub enum Wanting {
    /// A budget of so many units was used up.
    UnknownBudget { budget: u64 },
    /// So many slots for proofs were used up.
    UnknownProofs { slots: u32 },
    /// There was not enough memory.
    OutOfMemory,
}

impl Wanting {
    /// The exit status that tells it.
    pub fn status(self) -> u8
        ensures { result ≡ wanting_status self }
    {
        match self {
            Wanting::UnknownBudget { .. } | Wanting::UnknownProofs { .. } => UNKNOWN,
            Wanting::OutOfMemory => OUT_OF_MEMORY,
        }
    }
}

/// Writes what is told.
pub fn write_wanting<K: Sink>(sink: &mut K, wanting: Wanting) -> Result<(), Failed>
    ensures { WritesAll (K.writing sink.old) (K.writing sink.new) result (wanting_text wanting) }
{
    match wanting {
        Wanting::UnknownBudget { budget } => write_unknown_budget(sink, budget),
        Wanting::UnknownProofs { slots } => write_unknown_proofs(sink, slots),
        Wanting::OutOfMemory => write_out_of_memory(sink),
    }
}

/// What is told where this was wanting. The refusal is counted.
pub fn left_open(settings: Settings, why: RanOut) -> Finding<Wanting>
    requires { HasCause settings why }
    ensures tells { Tells settings why result.answer }
    ensures counted { result.tally ≡ wanting_tally settings result.answer }
{
    let mut tally = Tally::new(settings.budget, settings.slots);
    let wanting = match why {
        RanOut::Budget(refusal) => {
            tally.add(RanOut::Budget(refusal));
            Wanting::UnknownBudget {
                budget: settings.budget,
            }
        }
        RanOut::Slots(refusal) => {
            tally.add(RanOut::Slots(refusal));
            Wanting::UnknownProofs {
                slots: settings.slots,
            }
        }
        RanOut::Memory => Wanting::OutOfMemory,
    };
    Finding {
        answer: wanting,
        tally,
    }
}
