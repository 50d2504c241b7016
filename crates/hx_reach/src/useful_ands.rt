//! The Ands of Full links that are worth a link.

use crate::candidates::{Candidates, Rule};
use crate::ends::Ends;
use hx_board::{Cell, Mask, Memory, Vertex, VertexSet};
use hx_link::Link;
use hx_linkset::{FullLink, LinkSet};

/// The Full links with which one makes a useful And over one of its ends.
#[derive(Clone, Copy)]
struct Partners {
    /// The cells that their carriers may have: the empty ones outside its carrier and its far end.
    cells: Mask,

    /// Where they lead: to useful vertices outside its carrier, with which the far end is not
    /// joined yet.
    to: VertexSet,
}

impl Partners {
    /// The partners of a link over an own vertex, or over an empty cell. Over an own vertex two
    /// empty cells get no link.
    fn of(ends: &Ends, is_own: bool, link: &FullLink) -> Partners {
        let cells = ends.empties().minus(link.carrier);
        let empties = VertexSet::of_cells(ends.empties());
        let mut out = ends
            .reach(&link.to)
            .union(VertexSet::of_cells(link.carrier));
        if is_own && empties.has(link.to) {
            out = out.union(empties);
        }
        Partners {
            cells: match link.to {
                Vertex::Of(cell) => cells.without(cell),
                Vertex::First | Vertex::Last => cells,
            },
            to: ends.useful().minus(out),
        }
    }
}

/// Adds the And of two Full links over the end that they share, which is an own vertex or this empty cell. Whether a
/// live link covers it is asked once, when it is taken out.
fn push_and(
    candidates: &mut Candidates,
    over: Option<Cell>,
    one: &FullLink,
    other: &FullLink,
) -> Result<(), Memory> {
    let (left, right) = (one.index, other.index);
    let both = one.carrier.union(other.carrier);
    let (carrier, rule) = match over {
        Some(cell) => (both.with(cell), Rule::AndCell { left, right }),
        None => (both, Rule::AndStone { left, right }),
    };
    candidates.push(rule, &one.to, &other.to, carrier)
}

/// The empty cell that a vertex is. None where it is an own vertex.
fn empty_cell(ends: &Ends, vertex: &Vertex) -> Option<Cell> {
    match vertex {
        Vertex::Of(cell) if !ends.is_stone(cell) => Some(*cell),
        Vertex::Of(_) | Vertex::First | Vertex::Last => None,
    }
}

/// Adds the Ands over an end of a link with the links that came before it there.
fn push_ands_at(
    set: &LinkSet,
    ends: &Ends,
    candidates: &mut Candidates,
    at: &Vertex,
    link: &FullLink,
) -> Result<(), Memory> {
    if !ends.useful().has(link.to) {
        return Ok(());
    }
    let over = empty_cell(ends, at);
    let partners = Partners::of(ends, over.is_none(), link);
    for other in set.full_at_within(*at, partners.cells, partners.to) {
        if link.index <= other.index {
            break;
        }
        push_and(candidates, over, link, &other)?;
    }
    Ok(())
}

/// Adds the Ands of a Full link with those that came before it at its ends.
pub(crate) fn push_ands(
    set: &LinkSet,
    ends: &Ends,
    candidates: &mut Candidates,
    index: u32,
    link: &Link,
) -> Result<(), Memory> {
    for (at, to) in [(link.a, link.b), (link.b, link.a)] {
        let seen = FullLink {
            index,
            to,
            carrier: link.carrier,
        };
        push_ands_at(set, ends, candidates, &at, &seen)?;
    }
    Ok(())
}

/// Adds the Ands over a stone of any two Full links that end there.
pub(crate) fn push_ands_over(
    set: &LinkSet,
    ends: &Ends,
    candidates: &mut Candidates,
    stone: &Cell,
) -> Result<(), Memory> {
    let at = Vertex::Of(*stone);
    for link in set.full_at(at) {
        push_ands_at(set, ends, candidates, &at, &link)?;
    }
    Ok(())
}
