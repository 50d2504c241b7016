//! The counts, worked out anew from the whole list of events for each question.

ghost use Rattle.std.specs.Prelude.{◌≡◌, ◌<◌, IfOk};
ghost use Rattle.std.specs.List.{All};

use hx_count::{CountEvent, CountSeat, Counts, MOST_HELD, Totals};
use hx_test_support::Draws;
use std::process::Abort;
use std::test::Fail;

/// How many of the first units, up to the budget, a worker asked for.
fn plain_granted(events: &[CountEvent], budget: u64, worker: u32) -> u64 {
    let mut asked = 0u64;
    let mut granted = 0u64;
    for event in events {
        if let CountEvent::Spend { worker: who } = event {
            if asked < budget && *who == worker {
                granted = granted.saturating_add(1);
            }
            asked = asked.saturating_add(1);
        }
    }
    granted
}

/// How often a word was held and not released, by any worker.
fn plain_losses(events: &[CountEvent], word: u32) -> u64 {
    let mut held = 0u64;
    for event in events {
        match event {
            CountEvent::Hold { word: at, .. } if *at == word => held = held.saturating_add(1),
            CountEvent::Release { word: at, .. } if *at == word => held = held.saturating_sub(1),
            _ => {}
        }
    }
    held
}

/// A drawn step of a worker on one of three words: a spend, a look, a hold, or a hold and a release. What it sees is
/// held against the list.
fn step(
    rt: &impl Abort,
    counts: &Counts,
    seat: &mut CountSeat,
    events: &mut Vec<CountEvent>,
    worker: u32,
    draws: &mut Draws,
) -> Result<(), Fail>
    requires seat { seat.old.made ≡ counts.now }
    requires words { counts.now.limits.words ≡ 3 }
    ensures { seat.new.made ≡ seat.old.made }
{
    let word = draws.below(3);
    let kind = draws.below(4);
    if kind == 0 {
        let spent = counts.spend(seat).is_err();
        let before = plain_granted(events, 20, worker);
        events.push(CountEvent::Spend { worker })?;
        assert_eq!(rt; spent, plain_granted(events, 20, worker) == before);
        return Ok(());
    }
    if kind == 1 {
        assert_eq!(rt; counts.losses(seat, word), plain_losses(events, word));
        events.push(CountEvent::Look { worker, word })?;
        return Ok(());
    }
    if seat.held() >= MOST_HELD {
        return Err("no room".into());
    }
    counts.hold(seat, word);
    events.push(CountEvent::Hold { worker, word })?;
    if kind == 2 {
        counts.release(seat, word);
        events.push(CountEvent::Release { worker, word })?;
    }
    Ok(())
}

/// Three hundred steps, each by one worker or the other.
fn steps(
    rt: &impl Abort,
    counts: &Counts,
    first: &mut CountSeat,
    second: &mut CountSeat,
    events: &mut Vec<CountEvent>,
) -> Result<(), Fail>
    requires first { first.old.made ≡ counts.now }
    requires second { second.old.made ≡ counts.now }
    requires words { counts.now.limits.words ≡ 3 }
    ensures first { first.new.made ≡ first.old.made }
    ensures second { second.new.made ≡ second.old.made }
{
    let mut draws = Draws::new(2026);
    for _ in 0..300 {
        if draws.below(2) == 0 {
            step(rt, counts, first, events, 0, &mut draws)?;
        } else {
            step(rt, counts, second, events, 1, &mut draws)?;
        }
    }
    Ok(())
}

/// The seat that was dealt last, of counts that it fits.
fn last_seat(counts: &Counts, seats: &mut Vec<CountSeat>) -> Result<CountSeat, Fail>
    requires { All (λ s. s.made ≡ counts.now) seats.old.items }
    ensures seat { IfOk result (λ s. s.made ≡ counts.now) }
    ensures rest { All (λ s. s.made ≡ counts.now) seats.new.items }
{
    let _ = counts;
    Ok(seats.pop().ok_or("no seat")?)
}

/// The totals of counts with two workers.
fn close(counts: Counts, seats: Vec<CountSeat>) -> Result<Totals, Fail>
    requires workers { counts.limits.workers ≡ 2 }
    requires fit { All (λ s. s.made ≡ counts) seats.items }
{
    if seats.len() != 2 {
        return Err("a seat is missing".into());
    }
    Ok(counts.close(seats))
}

#[test]
fn drawn_steps_of_two_workers(rt: HostRuntime) -> Result<(), Fail> {
    let (counts, mut seats) = Counts::start(rt.alloc(), 20, 3, 2).or(Err("memory"))?;
    let mut second = last_seat(&counts, &mut seats)?;
    let mut first = last_seat(&counts, &mut seats)?;
    let mut events = Vec::new(rt.alloc());
    steps(&rt, &counts, &mut first, &mut second, &mut events)?;
    assert_eq!(rt; first.granted(), plain_granted(&events, 20, 0));
    assert_eq!(rt; second.granted(), plain_granted(&events, 20, 1));
    seats.push(first)?;
    seats.push(second)?;
    let totals = close(counts, seats)?;
    assert_eq!(rt; totals.granted, 20);
    let held = [0, 1, 2].map(|word| plain_losses(&events, word));
    assert_eq!(rt;
        totals.held,
        held[0].saturating_add(held[1]).saturating_add(held[2])
    );
    Ok(())
}
