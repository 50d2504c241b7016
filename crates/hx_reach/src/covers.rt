//! Whether a link would be of use in a set: no live link covers it, and its ends have few yet.

use hx_board::{Mask, Position, Vertex};
use hx_link::Kind;
use hx_linkset::LinkSet;

/// The most links of one kind and two ends, the two sides left out, that are made on a board.
#[derive(Clone, Copy)]
pub(crate) struct Caps {
    full: u32,
    semi: u32,
}

impl Caps {
    /// No link.
    pub(crate) fn none() -> Caps {
        Caps { full: 0, semi: 0 }
    }

    /// Small boards are searched to the end with many links. On large ones a set has no room for as many, and with
    /// fewer of each pair of ends it holds links of more pairs.
    pub(crate) fn of(position: &Position) -> Caps {
        let size = position.size();
        if size.rows() <= 8 && size.cols() <= 8 {
            Caps { full: 20, semi: 80 }
        } else {
            Caps { full: 8, semi: 32 }
        }
    }

    fn of_kind(&self, kind: Kind) -> u32 {
        match kind {
            Kind::Full => self.full,
            Kind::Semi => self.semi,
        }
    }
}

/// Whether a vertex is a side.
fn is_side(vertex: &Vertex) -> bool {
    match vertex {
        Vertex::Of(_) => false,
        Vertex::First | Vertex::Last => true,
    }
}

/// Whether a live link of this kind and these ends lies inside the carrier.
pub(crate) fn is_covered(set: &LinkSet, kind: Kind, a: &Vertex, b: &Vertex, carrier: Mask) -> bool {
    let mut next = set.first_of(kind, *a, *b);
    for _ in 0..set.count() {
        let Some(index) = next else {
            return false;
        };
        match set.held(index) {
            Some(link) if !link.carrier.inside(carrier) => {}
            _ => return true,
        }
        next = set.next_of(index);
    }
    false
}

/// The cells of the carrier that all live links of this kind and these ends have. None where one of them lies inside
/// the carrier, or they are many.
pub(crate) fn shared_where_wanted(
    set: &LinkSet,
    caps: &Caps,
    kind: Kind,
    a: &Vertex,
    b: &Vertex,
    carrier: Mask,
) -> Option<Mask> {
    let mut shared = carrier;
    let most = if is_side(a) && is_side(b) {
        set.count()
    } else {
        caps.of_kind(kind)
    };
    let mut next = set.first_of(kind, *a, *b);
    for _ in 0..most {
        let Some(index) = next else {
            return Some(shared);
        };
        match set.held(index) {
            Some(link) if !link.carrier.inside(carrier) => {
                shared = shared.meet(link.carrier);
            }
            _ => return None,
        }
        next = set.next_of(index);
    }
    if next.is_none() { Some(shared) } else { None }
}
