//! Sets of links beside plain lists, through drawn steps, plays of some stones and takings back: after each of them
//! every answer is compared.

use super::plain_sets::{PlainSet, is_between};
use hx_board::{Cell, Colour, Size, VERTICES, Vertex};
use hx_link::{Kind, Parts, Step};
use hx_linkset::{FullLink, LinkSet, MOST_LINKS};
use hx_test_support::Draws;
use smallvec::SmallVec;
use std::alloc::Global;
use std::process::Abort;
use std::test::Fail;

/// The live links of a kind, or of both, and of two ends, by their places.
fn plain_live(
    alloc: Global,
    plain: &PlainSet,
    kind: Option<Kind>,
    a: &Vertex,
    b: &Vertex,
) -> Result<Vec<u32>, Fail> {
    let mut places = Vec::new(alloc);
    for place in 0..plain.count().min(MOST_LINKS) {
        if let Some(link) = plain.live_at(place)
            && is_between(&link, kind, a, b)
        {
            places.push(place as u32)?;
        }
    }
    Ok(places)
}

/// The links of a kind and two ends along their chain.
fn chain_of(
    alloc: Global,
    set: &LinkSet,
    kind: Kind,
    a: &Vertex,
    b: &Vertex,
) -> Result<Vec<u32>, Fail> {
    let mut places = Vec::new(alloc);
    let mut next = set.first_of(kind, *a, *b);
    for _ in 0..set.count() {
        let Some(place) = next else {
            break;
        };
        places.push(place)?;
        next = set.next_of(place);
    }
    Ok(places)
}

/// The links of two ends.
fn compare_pair(
    rt: &impl Abort,
    alloc: Global,
    set: &LinkSet,
    plain: &PlainSet,
    a: &Vertex,
    b: &Vertex,
) -> Result<(), Fail> {
    for kind in [Kind::Full, Kind::Semi] {
        let expected = plain_live(alloc, plain, Some(kind), a, b)?;
        assert_eq!(rt; chain_of(alloc, set, kind, a, b)?, expected);
    }
    let mut found = Vec::new(alloc);
    for place in set.live(*a, *b) {
        found.push(place)?;
    }
    assert_eq!(rt; found, plain_live(alloc, plain, None, a, b)?);
    Ok(())
}

/// The Full links at a vertex.
fn compare_fulls(
    rt: &impl Abort,
    alloc: Global,
    set: &LinkSet,
    plain: &PlainSet,
    vertex: &Vertex,
) -> Result<(), Fail> {
    let mut found = Vec::new(alloc);
    for full in set.full_at(*vertex) {
        found.push(full)?;
    }
    let mut expected = Vec::new(alloc);
    for place in 0..plain.count().min(MOST_LINKS) {
        if let Some(link) = plain.live_at(place)
            && link.kind == Kind::Full
            && (link.a == *vertex || link.b == *vertex)
        {
            let to = if link.a == *vertex { link.b } else { link.a };
            expected.push(FullLink {
                index: place as u32,
                to,
                carrier: link.carrier,
            })?;
        }
    }
    assert_eq!(rt; found, expected, "{vertex:?}");
    Ok(())
}

/// What the last plays dropped, and each link by itself.
fn compare_links(rt: &impl Abort, set: &LinkSet, plain: &PlainSet) {
    assert!(rt; set.position() == &plain.position && set.plays() as usize == plain.plays());
    assert!(rt; set.before_last_stones() == plain.before_last_stones());
    let mut dropped = 0usize;
    for place in 0..plain.count().min(MOST_LINKS) {
        assert_eq!(rt; set.link(place as u32), plain.live_at(place));
        let is_dropped = set.dropped().contains(&(place as u16));
        assert_eq!(rt; is_dropped, plain.is_dropped(place));
        dropped = dropped.saturating_add(is_dropped as usize);
    }
    assert_eq!(rt; set.dropped().len(), dropped);
    assert_eq!(rt; set.count() as usize, plain.count());
}

fn compare(rt: &impl Abort, alloc: Global, set: &LinkSet, plain: &PlainSet) -> Result<(), Fail> {
    compare_links(rt, set, plain);
    let size = plain.position.size();
    for one in 0..VERTICES as u8 {
        let Some(a) = size.vertex(one) else {
            continue;
        };
        compare_fulls(rt, alloc, set, plain, &a)?;
        for other in one..VERTICES as u8 {
            if let Some(b) = size.vertex(other) {
                compare_pair(rt, alloc, set, plain, &a, &b)?;
            }
        }
    }
    Ok(())
}

/// A drawn step on the links that are held, and a few places more.
fn drawn_step(alloc: Global, draws: &mut Draws, size: Size, count: u32) -> Result<Step, Fail> {
    let places = count.saturating_add(1);
    let (left, right) = (draws.below(places), draws.below(places));
    match draws.below(4) {
        0 => Ok(Step::AndStone { left, right }),
        1 => Ok(Step::AndCell { left, right }),
        2 => {
            let places = SmallVec::from_slice(alloc, &[left, right])?;
            let parts = Parts::new(places);
            Ok(Step::Or { parts })
        }
        _ => Ok(Step::Base {
            a: drawn_vertex(draws, size)?,
            b: drawn_vertex(draws, size)?,
        }),
    }
}

fn drawn_vertex(draws: &mut Draws, size: Size) -> Result<Vertex, Fail> {
    match draws.below(4) {
        0 => Ok(Vertex::First),
        1 => Ok(Vertex::Last),
        _ => {
            let cell = draws.cell(size, size.all()).ok_or("cell")?;
            Ok(Vertex::Of(cell))
        }
    }
}

/// One or two stones on different empty cells.
fn drawn_stones(
    alloc: Global,
    draws: &mut Draws,
    plain: &PlainSet,
) -> Result<Vec<(Colour, Cell)>, Fail> {
    let mut stones = Vec::new(alloc);
    let mut left = plain.position.empties();
    for _ in 0..draws.below(2).saturating_add(1) {
        if let Some(cell) = draws.cell(plain.position.size(), left) {
            left = left.without(cell);
            stones.push((draws.colour(), cell))?;
        }
    }
    Ok(stones)
}

/// Takes a step, plays, or takes a play back, on both.
fn change(
    rt: &impl Abort,
    alloc: Global,
    draws: &mut Draws,
    set: &mut LinkSet,
    plain: &mut PlainSet,
) -> Result<(), Fail> {
    match draws.below(12) {
        0 => {
            let stones = drawn_stones(alloc, draws, plain)?;
            if set.can_play(stones.as_slice()) {
                set.play_all(stones.as_slice());
                plain.play(stones.as_slice()).map_err(|_| "memory")?;
            }
        }
        1 => {
            if set.plays() > 0 {
                set.undo();
                plain.undo();
            }
        }
        _ => {
            let step = drawn_step(alloc, draws, plain.position.size(), set.count())?;
            let expected = plain.add(&step).map_err(|_| "memory")?;
            assert_eq!(rt; set.add(step).map_err(|_| "memory")?, expected);
        }
    }
    Ok(())
}

#[test]
fn drawn_runs(rt: HostRuntime) -> Result<(), Fail> {
    let mut draws = Draws::new(27);
    let mut links = 0u32;
    for (rows, cols, colour) in [(2u8, 3u8, Colour::Black), (3, 3, Colour::White)] {
        let size = Size::new(rows, cols).ok_or("size")?;
        let position = draws.position(size, size.all().count().saturating_sub(1));
        let mut set = LinkSet::new(rt.alloc(), &position, colour).map_err(|_| "memory")?;
        let mut plain = PlainSet::new(rt.alloc(), &position, colour);
        for _ in 0..400u32 {
            change(&rt, rt.alloc(), &mut draws, &mut set, &mut plain)?;
            compare(&rt, rt.alloc(), &set, &plain)?;
            links = links.saturating_add(set.count());
        }
    }
    assert!(rt; links > 1000, "{links}");
    Ok(())
}
