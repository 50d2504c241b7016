//! Proof numbers by the formulas of df-pn, worked out from a list of children, for each question anew.

ghost use Rattle.std.specs.Prelude.{◌≤◌};
ghost use Rattle.hx_pn.specs.Numbers.{IsNumbers};

use hx_pn::{INF, Numbers, combine, focus, thresholds, worse};
use hx_test_support::Draws;
use std::process::Abort;
use std::test::Fail;

/// The least delta of the children but for the one at a place.
fn plain_least(children: &[Numbers], without: Option<usize>) -> u64 {
    let mut least = u64::from(INF);
    for (place, child) in children.iter().enumerate() {
        if Some(place) != without && u64::from(child.delta) < least {
            least = u64::from(child.delta);
        }
    }
    least
}

/// The sum of the children's phi, which stops at `INF`.
fn plain_sum(children: &[Numbers]) -> u64 {
    let mut sum = 0u64;
    for child in children {
        sum = sum.saturating_add(u64::from(child.phi));
    }
    sum.min(u64::from(INF))
}

/// The child to go down to and its thresholds: the first with the least delta. Its phi may grow by as much as the
/// node's delta may, its delta to one more than the second least, and not above the node's phi threshold.
fn plain_thresholds(limit: Numbers, children: &[Numbers]) -> Option<(usize, u64, u64)> {
    let least = plain_least(children, None);
    let sum = plain_sum(children);
    if u64::from(limit.phi) <= least || u64::from(limit.delta) <= sum {
        return None;
    }
    for (place, child) in children.iter().enumerate() {
        if u64::from(child.delta) == least {
            let second = plain_least(children, Some(place));
            let phi = u64::from(limit.delta)
                .saturating_sub(sum)
                .saturating_add(u64::from(child.phi));
            let delta = second.saturating_add(1).min(u64::from(limit.phi));
            return Some((place, phi, delta.min(u64::from(INF))));
        }
    }
    None
}

/// A number from 0 to 9, or now and then `INF`.
fn drawn_number(draws: &mut Draws) -> u32
    ensures { result ≤ INF }
{
    let number = draws.below(11);
    if number == 10 { INF } else { number }
}

fn drawn(draws: &mut Draws) -> Numbers
    ensures { IsNumbers result }
{
    let phi = drawn_number(draws);
    let delta = drawn_number(draws);
    Numbers { phi, delta }
}

/// Four drawn children by the calls and by the plain formulas.
fn compare(rt: &impl Abort, draws: &mut Draws) {
    let limit = drawn(draws);
    let children = [drawn(draws), drawn(draws), drawn(draws), drawn(draws)];
    let all = combine(&children);
    assert_eq!(rt;
        u64::from(all.phi),
        plain_least(&children, None),
        "{children:?}"
    );
    assert_eq!(rt; u64::from(all.delta), plain_sum(&children), "{children:?}");
    let found = thresholds(limit, &children);
    let found = found.map(|(place, child)| (place, u64::from(child.phi), u64::from(child.delta)));
    assert_eq!(rt;
        found,
        plain_thresholds(limit, &children),
        "{limit:?}, {children:?}"
    );
    let held = draws.below(5);
    let looks = worse(limit, u64::from(held));
    let delta = u64::from(limit.delta).saturating_add(u64::from(held));
    assert_eq!(rt;
        (looks.phi, u64::from(looks.delta)),
        (limit.phi, delta.min(u64::from(INF)))
    );
}

#[test]
fn drawn_children(rt: HostRuntime) -> Result<(), Fail> {
    let mut draws = Draws::new(2026);
    for _ in 0..2000 {
        compare(&rt, &mut draws);
    }
    Ok(())
}

/// Of so many live children the first quarter and one more are looked at, or all where these are fewer.
#[test]
fn children_that_are_looked_at(rt: HostRuntime) -> Result<(), Fail> {
    for live in 0..122u32 {
        let looked = focus(live);
        assert!(rt;
            looked == live || (looked > live / 4 && looked <= live / 4 + 2 && looked < live),
            "{live}"
        );
        assert!(rt; 4 * u64::from(looked) >= u64::from(live), "{live}");
    }
    Ok(())
}
