//! A worker, and how it asks for a unit.

ghost use Rattle.std.specs.Prelude.{◌≡◌, IfErr};
ghost use Rattle.hx_count.specs.Seats.{own, after_spend};
ghost use Rattle.hx_count.specs.Seats.{KeepsSeat};
ghost use Rattle.hx_limits.specs.Causes.{IsSpent};

use hx_count::{CountSeat, Counts, Hints, Spent};
use hx_io::Gate;
use hx_ordering::Replies;
use std::alloc::Global;

/// A worker's number, and what it has in common with all other workers.
#[derive(Drop)]
pub struct Worker<'a, G, R> {
    pub number: u32,
    pub alloc: Global,
    pub rt: &'a R,
    pub gate: &'a G,
    pub counts: &'a Counts,
    pub hints: &'a Hints,
    pub replies: &'a Replies,
}

/// Calls the gate and asks for a unit.
pub fn ask<G: Gate, R>(worker: &Worker<'_, G, R>, seat: &mut CountSeat) -> Result<(), Spent>
    requires { seat.old.made ≡ worker.now.counts.now }
    ensures seat { KeepsSeat seat.old seat.new }
    ensures own { own seat.new ≡ after_spend result (own seat.old) }
    ensures spent { IfErr result (IsSpent seat.new) }
{
    worker.gate.at_turn(worker.number, seat.granted());
    worker.counts.spend(seat)
}
