//! Counts with two seats, of which a test has one more than the worker that it looks at.

ghost use Rattle.std.specs.Prelude.{◌≡◌, ◌≤◌, ◌^◌, IfOk};
ghost use Rattle.hx_count.specs.Machine.{held_in_all};
ghost use Rattle.hx_count.specs.Seats.{own};

use hx_count::{CountSeat, Counts};
use hx_ordering::LOSS_WORDS;
use std::alloc::Global;
use std::test::Fail;

/// Counts with so many units and two seats.
pub(crate) fn two_seats(alloc: Global, budget: u64) -> Result<(Counts, CountSeat, CountSeat), Fail>
    requires { budget ≤ 2 ^ 40 }
    ensures words { IfOk result (λ made. made.0.limits.words ≡ LOSS_WORDS) }
    ensures first { IfOk result (λ made. made.1.made ≡ made.0) }
    ensures second { IfOk result (λ made. made.2.made ≡ made.0) }
    ensures nothing { IfOk result (λ made. held_in_all (own made.1) ≡ 0) }
    ensures nothing_either { IfOk result (λ made. held_in_all (own made.2) ≡ 0) }
{
    let (counts, mut seats) = Counts::start(alloc, budget, LOSS_WORDS, 2).or(Err("memory"))?;
    let second = seats.pop().ok_or("no seat")?;
    let first = seats.pop().ok_or("no seat")?;
    Ok((counts, first, second))
}
