//! How two earlier links meet, which both And rules ask first: at exactly one end, and nowhere else.

ghost use Rattle.hx_board.specs.Finds.{Finds};
ghost use Rattle.hx_link.specs.Named.{MeetIn, IsMeetingAt, IsFullAt, IsMet};

use crate::links::{Kind, Link};
use hx_board::Vertex;

/// The one end that two links share, between their other ends.
#[derive(Clone, Copy)]
pub(crate) struct Meeting {
    pub(crate) from: Vertex,
    pub(crate) middle: Vertex,
    pub(crate) to: Vertex,
}

/// Two links, and how they meet.
#[derive(Clone, Copy)]
pub(crate) struct Met {
    pub(crate) first: Link,
    pub(crate) second: Link,
    pub(crate) at: Meeting,
}

/// How a link between two ends meets another one at the second of them, and nowhere else.
#[inline(always)]
fn meeting_at(from: &Vertex, middle: &Vertex, second: &Link) -> Option<Meeting>
    ensures { Finds result (IsMeetingAt from.now middle.now second.now) }
{
    if second.a == *middle && second.b != *from {
        return Some(Meeting {
            from: *from,
            middle: *middle,
            to: second.b,
        });
    }
    if second.b == *middle && second.a != *from {
        return Some(Meeting {
            from: *from,
            middle: *middle,
            to: second.a,
        });
    }
    None
}

/// The one end that two links share. None where they share none or both.
#[inline(always)]
fn meeting_of(first: &Link, second: &Link) -> Option<Meeting>
    ensures { Finds result (MeetIn first.now second.now) }
{
    match meeting_at(&first.a, &first.b, second) {
        Some(meeting) => Some(meeting),
        None => meeting_at(&first.b, &first.a, second),
    }
}

/// The earlier Full link at a place.
#[inline(always)]
fn full_at(before: &[Link], place: u32) -> Option<Link>
    ensures { Finds result (IsFullAt before.now place) }
{
    match before.get(place as usize) {
        None => None,
        Some(link) => {
            let link = *link;
            if link.kind == Kind::Full {
                Some(link)
            } else {
                None
            }
        }
    }
}

/// Two earlier Full links that share exactly one end and no cell of their carriers.
#[inline(always)]
pub(crate) fn met_of(before: &[Link], left: u32, right: u32) -> Option<Met>
    ensures { Finds result (IsMet before.now left right) }
{
    let Some(first) = full_at(before, left) else {
        return None;
    };
    let Some(second) = full_at(before, right) else {
        return None;
    };
    let Some(at) = meeting_of(&first, &second) else {
        return None;
    };
    let meets = first.carrier.meets(second.carrier);
    if meets {
        None
    } else {
        Some(Met { first, second, at })
    }
}
