//! Units of workers in threads.

ghost use Rattle.std.specs.Prelude.{◌≡◌, ◌≤◌, ◌<◌, ◌^◌, IfOk};
ghost use Rattle.std.specs.List.{All};

use hx_count::{CountSeat, Counts, Totals};
use std::alloc::Global;
use std::test::Fail;
use std::thread;
use std::thread::Threads;

/// Counts with at most 64 seats and two words.
fn counts(alloc: Global, budget: u64, seats: u32) -> Result<(Counts, Vec<CountSeat>), Fail>
    requires budget { budget ≤ 2 ^ 40 }
    requires seats { (0 < seats) × (seats ≤ 64) }
    ensures limits { IfOk result (λ made. made.0.limits
        ≡ record { budget = budget; words = 2; workers = seats }) }
    ensures fit { IfOk result (λ made. All (λ s. s.made ≡ made.0) made.1.items) }
{
    Ok(Counts::start(alloc, budget, 2, seats).or(Err("memory"))?)
}

/// The totals of counts with so many workers.
fn close(counts: Counts, seats: Vec<CountSeat>, workers: u32) -> Result<Totals, Fail>
    requires workers { counts.limits.workers ≡ workers }
    requires fit { All (λ s. s.made ≡ counts) seats.items }
{
    if seats.len() != workers as usize {
        return Err("a seat is missing".into());
    }
    Ok(counts.close(seats))
}

/// Many spends of one worker.
fn spend_many(counts: &Counts, seat: CountSeat) -> CountSeat
    requires { seat.made ≡ counts.now }
    ensures { result.made ≡ counts.now }
{
    let mut seat = seat;
    for _ in 0..2000 {
        let _ = counts.spend(&mut seat);
    }
    seat
}

/// Each worker in a thread.
fn spend_all<R: Threads + Sync>(
    rt: &R,
    counts: &Counts,
    seats: Vec<CountSeat>,
) -> Result<Vec<CountSeat>, Fail>
    requires { All (λ s. s.made ≡ counts.now) seats.items }
    ensures { IfOk result (λ v. All (λ s. s.made ≡ counts.now) v.items) }
{
    Ok(thread::map_vec(rt, seats, &|seat| spend_many(counts, seat))?)
}

#[test]
fn eight_threads_share_the_units(rt: HostRuntime) -> Result<(), Fail> {
    let (counts, seats) = counts(rt.alloc(), 10_000, 8)?;
    let seats = spend_all(&rt, &counts, seats)?;
    let mut granted = 0u64;
    for seat in &seats {
        granted = granted.saturating_add(seat.granted());
    }
    assert_eq!(rt; granted, 10_000);
    assert_eq!(rt; close(counts, seats, 8)?.granted, 10_000);
    Ok(())
}
