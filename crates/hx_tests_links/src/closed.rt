//! What closed means: each step is tried on a plain list of the live links.
//!
//! What one step gives is asked of hx_link, which holds that against a plain program of its own.

ghost use Rattle.std.specs.Prelude.{◌≡◌};

use hx_board::{Colour, Groups, Mask, Position, VERTICES, Vertex};
use hx_link::{Kind, Link, Step, result_of};
use hx_linkset::{LinkSet, MOST_LINKS};
use std::alloc::{AllocError, Global};

/// The live links of a set, in their order.
pub(crate) fn live_links(alloc: Global, set: &LinkSet) -> Result<Vec<Link>, AllocError> {
    let mut links = Vec::new(alloc);
    for index in 0..set.count() {
        add_live(set, index, &mut links)?;
    }
    Ok(links)
}

fn add_live(set: &LinkSet, index: u32, links: &mut Vec<Link>) -> Result<(), AllocError> {
    match set.link(index) {
        None => Ok(()),
        Some(link) => add_link(links, link.kind, &link.a, &link.b, link.carrier),
    }
}

fn add_link(
    links: &mut Vec<Link>,
    kind: Kind,
    a: &Vertex,
    b: &Vertex,
    carrier: Mask,
) -> Result<(), AllocError> {
    let link = Link {
        kind,
        a: *a,
        b: *b,
        carrier,
    };
    links.push(link)?;
    Ok(())
}

/// Whether a link has the kind and the ends of another one, and no cell that it lacks.
fn covers(by: &Link, link: &Link) -> bool {
    by.kind == link.kind && by.a == link.a && by.b == link.b && by.carrier.inside(link.carrier)
}

fn is_covered(links: &[Link], link: &Link) -> bool {
    for by in links {
        if covers(by, link) {
            return true;
        }
    }
    false
}

/// Whether one of the links covers what the step gives.
fn is_settled(
    position: &Position,
    player: Colour,
    groups: &Groups,
    links: &[Link],
    step: &Step,
) -> bool
    requires { groups.now ≡ record { board = position.now; player = player } }
{
    match result_of(position, player, groups, links, step) {
        None => true,
        Some(link) => is_covered(links, &link),
    }
}

/// Whether two vertices have a Full link, or fewer than two Semi links, or some cell that all their Semi links share.
fn is_joined_where_forked(links: &[Link], a: &Vertex, b: &Vertex) -> bool {
    let mut in_all = Mask::of(u128::MAX);
    let mut semi_links = 0u32;
    for link in links {
        if link.a != *a || link.b != *b {
            continue;
        }
        if link.kind == Kind::Full {
            return true;
        }
        semi_links = semi_links.saturating_add(1);
        in_all = in_all.meet(link.carrier);
    }
    semi_links < 2 || !in_all.is_empty()
}

/// Whether the Base of two vertices is settled, and they are joined where they are forked. Nothing is wanted of no
/// vertex.
fn is_closed_at(
    position: &Position,
    player: Colour,
    groups: &Groups,
    links: &[Link],
    a: &Vertex,
    b: Option<Vertex>,
) -> bool
    requires { groups.now ≡ record { board = position.now; player = player } }
{
    let Some(b) = b else {
        return true;
    };
    let base = Step::Base { a: *a, b };
    if !is_settled(position, player, groups, links, &base) {
        return false;
    }
    is_joined_where_forked(links, a, &b)
}

/// The same for a vertex and each other one.
fn is_closed_from(
    position: &Position,
    player: Colour,
    groups: &Groups,
    links: &[Link],
    a: Option<Vertex>,
) -> bool
    requires { groups.now ≡ record { board = position.now; player = player } }
{
    let Some(a) = a else {
        return true;
    };
    for code in 0..VERTICES as u8 {
        if !is_closed_at(
            position,
            player,
            groups,
            links,
            &a,
            position.size().vertex(code),
        ) {
            return false;
        }
    }
    true
}

/// Whether the Ands of a link with each of the links are settled.
fn are_ands_settled(
    position: &Position,
    player: Colour,
    groups: &Groups,
    links: &[Link],
    left: u32,
) -> bool
    requires { groups.now ≡ record { board = position.now; player = player } }
{
    for right in 0..links.len().min(MOST_LINKS) as u32 {
        let stone = Step::AndStone { left, right };
        let cell = Step::AndCell { left, right };
        if !is_settled(position, player, groups, links, &stone) {
            return false;
        }
        if !is_settled(position, player, groups, links, &cell) {
            return false;
        }
    }
    true
}

/// Whether nothing that a Base or an And gives from these links is missing among them, and no two ends are forked
/// without a Full link.
pub(crate) fn is_closed(position: &Position, player: Colour, links: &[Link]) -> bool {
    let groups = Groups::of(position, player);
    for code in 0..VERTICES as u8 {
        if !is_closed_from(
            position,
            player,
            &groups,
            links,
            position.size().vertex(code),
        ) {
            return false;
        }
    }
    for left in 0..links.len().min(MOST_LINKS) as u32 {
        if !are_ands_settled(position, player, &groups, links, left) {
            return false;
        }
    }
    true
}
