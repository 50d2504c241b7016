//! What ran out where a search came to no answer.

ghost use Rattle.std.specs.Prelude.{◌≡◌};

use hx_board::Memory;
use hx_book::NoSlot;
use hx_count::Spent;
use thiserror::Error;

/// What ran out: units or slots, with the refusal that was got for a further one, or memory.
#[derive(Debug, Drop, Error)]
pub enum RanOut {
    /// The units, with the refusal of one.
    #[error("no unit is left")]
    Budget(Spent),

    /// The slots, with the refusal of a proof.
    #[error("no slot is left")]
    Slots(NoSlot),

    /// Memory.
    #[error("there is not enough memory")]
    Memory,
}

impl From<Spent> for RanOut {
    ghost use Rattle.hx_limits.specs.declared.ran_out.RanOut.TheVariants.{Budget};

    ghost from_gives = { λ refusal why. why ≡ Budget refusal };

    fn from(refusal: Spent) -> RanOut {
        RanOut::Budget(refusal)
    }
}

impl From<NoSlot> for RanOut {
    ghost use Rattle.hx_limits.specs.declared.ran_out.RanOut.TheVariants.{Slots};

    ghost from_gives = { λ refusal why. why ≡ Slots refusal };

    fn from(refusal: NoSlot) -> RanOut {
        RanOut::Slots(refusal)
    }
}

impl From<Memory> for RanOut {
    ghost use Rattle.hx_limits.specs.declared.ran_out.RanOut.TheVariants.{Memory as NoMemory};

    ghost from_gives = { λ _ why. why ≡ NoMemory };

    fn from(_memory: Memory) -> RanOut {
        RanOut::Memory
    }
}
