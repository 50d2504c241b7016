//! What workers are sent for.

ghost use Rattle.std.specs.Prelude.{◌≡◌, List};
ghost use Rattle.hx_tree.specs.declared.nodes.Node.{Node};
ghost use Rattle.hx_tree.specs.Entries.{Extends};
ghost use Rattle.hx_pool.specs.Seats.{AreNewSeats, IsDone};

use crate::benches::Bench;
use crate::seats::{Done, Seats};
use hx_io::Gate;
use hx_ordering::LOSS_WORDS;
use std::alloc::Global;
use std::sync::Wait;

/// What all workers are sent for, each with seats of its own.
pub trait Errand {
    /// What a worker comes back with that found what it was sent for.
    type Found: Drop + Send;

    /// What this says of the list of proofs.
    ghost proved: { Self → List Node → Self.Found → Type 0 };

    /// What a worker has found that was granted a unit and came back for want of another one.
    ghost tried: { Self → Type 0 };

    /// One worker's part of it.
    fn run<G: Gate, R: Wait>(
        &self,
        rt: &R,
        alloc: Global,
        gate: &G,
        bench: &Bench<'_>,
        seats: Seats,
    ) -> Done<Self::Found>
        requires words { bench.now.counts.now.limits.words ≡ LOSS_WORDS }
        requires seats { AreNewSeats bench.now.shared.now.made bench.now.counts.now seats }
        ensures { IsDone (proved self.now) (tried self.now) bench.now.shared.now.made
            bench.now.counts.now result };

    /// What is said of a list of proofs is true of each list that goes on from it.
    ghost stays: { (errand : Self) (old new : List Node) (found : Self.Found) → Extends old new
        → proved errand old found → proved errand new found };
}
