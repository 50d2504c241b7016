//! How a worker's work ends.

ghost use Rattle.std.specs.Prelude.{◌≡◌};
ghost use Rattle.hx_worker.specs.Ends.{found_of, ended_of};

use hx_board::Colour;
use hx_book::NoSlot;
use hx_count::Spent;
use hx_limits::RanOut;
use hx_tree::Found;

/// How a worker's work ends.
#[derive(Debug, Drop)]
pub enum Ended {
    /// The list of proofs has the position at this index, with this winner.
    Proved { index: u32, winner: Colour },

    /// No unit was left: the refusal is that of this worker.
    Spent(Spent),

    /// No slot was left for a proof: the refusal is that of this worker's node.
    NoSlots(NoSlot),

    /// Memory was wanting.
    Memory,
}

impl Ended {
    /// The same as an entry that was found, or what ran out.
    pub fn found(self) -> Result<Found, RanOut>
        ensures { result ≡ found_of self }
    {
        match self {
            Ended::Proved { index, winner } => Ok(Found { index, winner }),
            Ended::Spent(refusal) => Err(RanOut::Budget(refusal)),
            Ended::NoSlots(refusal) => Err(RanOut::Slots(refusal)),
            Ended::Memory => Err(RanOut::Memory),
        }
    }

    /// The end by an entry that was found, or by what ran out.
    pub(crate) fn of(found: Result<Found, RanOut>) -> Ended
        ensures { result ≡ ended_of found }
    {
        match found {
            Ok(Found { index, winner }) => Ended::Proved { index, winner },
            Err(RanOut::Budget(refusal)) => Ended::Spent(refusal),
            Err(RanOut::Slots(refusal)) => Ended::NoSlots(refusal),
            Err(RanOut::Memory) => Ended::Memory,
        }
    }
}
