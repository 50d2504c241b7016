//! Links between two vertices of a player's graph, and which of them there can be on a board.
//!
//! Anshelevich calls a Full link a virtual connection and a Semi link a virtual semi-connection.

ghost use Rattle.std.specs.Prelude.{◌≡◌, ℕ, ◌<◌, ◌↔◌, IsTrue, true, false};
ghost use Rattle.hx_board.specs.declared.colours.Colour.{Colour};
ghost use Rattle.hx_board.specs.declared.vertices.Vertex.{Vertex};
ghost use Rattle.hx_board.specs.Finds.{Finds};
ghost use Rattle.hx_board.specs.Positions.{Board};
ghost use Rattle.hx_board.specs.Sets.{has};
ghost use Rattle.hx_board.specs.VertexSets.{code_of, IsSomeVertex};
ghost use Rattle.hx_link.specs.declared.links.Link.{Link};
ghost use Rattle.hx_link.specs.Steps.{IsEnd, IsLink, IsAllowed, HasEnds, IsChainLink};
ghost use Rattle.hx_link.specs.Named.{IsMade};

use hx_board::{Colour, Mask, Position, Vertex, VertexSet};

/// Who may move first for a link to hold: where it is Full the opponent too, and where it is Semi the player alone.
#[derive(Clone, Copy, PartialEq, Eq, Debug)]
pub enum Kind {
    Full,
    Semi,
}

/// A claim that the player can join two vertices by moves to the cells of the carrier alone; `a` comes first in vertex
/// order.
#[derive(Clone, Copy, PartialEq, Eq, Debug)]
pub struct Link {
    pub kind: Kind,
    pub a: Vertex,
    pub b: Vertex,
    pub carrier: Mask,
}

impl Link {
    /// Whether it joins the player's two sides.
    pub fn joins_sides(&self) -> bool
        ensures { IsTrue result ↔ IsChainLink self.now }
    {
        self.a == Vertex::First && self.b == Vertex::Last
    }
}

/// The vertices that may be ends of the player's links: the sides, and the cells of the board
/// without a stone of the opponent.
pub fn ends_of(position: &Position, colour: Colour) -> VertexSet
    ensures { (vertex : Vertex) → IsSomeVertex vertex
        → (has result (code_of vertex) ≡ true) ↔ IsEnd position.now colour vertex }
{
    let cells = position.size().all().minus(position.stones(colour.other()));
    VertexSet::of_cells(cells)
        .with(Vertex::First)
        .with(Vertex::Last)
}

/// Whether a vertex is no cell of a set.
#[inline(always)]
pub fn is_outside(cells: Mask, vertex: &Vertex) -> bool
    ensures { IsTrue result ↔ ((cell : ℕ) → vertex.now ≡ Vertex.Of cell → has cells cell ≡ false) }
{
    match vertex {
        Vertex::Of(cell) => !cells.has(*cell),
        Vertex::First | Vertex::Last => true,
    }
}

/// What a player's links may have on a position: the empty cells in their carriers, and these vertices as ends. Who
/// asks for many links takes it once.
#[derive(Clone, Copy)]
pub struct Allowed {
    pub empties: Mask,
    pub ends: VertexSet,
}

/// What the player's links may have on this position.
pub fn allowed_on(position: &Position, colour: Colour) -> Allowed
    ensures { IsAllowed result position.now colour }
{
    Allowed {
        empties: position.empties(),
        ends: ends_of(position, colour),
    }
}

/// Whether there can be this link on each board where this is allowed.
#[inline(always)]
fn is_link(allowed: &Allowed, link: &Link) -> bool
    ensures { (board : Board) (colour : Colour) → IsAllowed allowed.now board colour
        → IsTrue result ↔ IsLink board colour link.now }
{
    let inner = allowed.empties.meet(link.carrier);
    let a_end = allowed.ends.has(link.a);
    let b_end = allowed.ends.has(link.b);
    let a_outside = is_outside(inner, &link.a);
    let b_outside = is_outside(inner, &link.b);
    link.a.code() < link.b.code() && a_end && b_end && a_outside && b_outside
}

/// Whether a link has these ends, in either order.
pub(crate) fn has_ends(link: &Link, x: &Vertex, y: &Vertex) -> bool
    ensures { IsTrue result ↔ HasEnds link.now x.now y.now }
{
    (link.a == *x && link.b == *y) || (link.a == *y && link.b == *x)
}

/// The link with the lower one of these ends first.
fn ordered(kind: Kind, x: &Vertex, y: &Vertex, carrier: Mask) -> Link
    ensures kind { result.kind ≡ kind }
    ensures carrier { result.carrier ≡ carrier }
    ensures ends { HasEnds result x.now y.now }
    ensures only { (link : Link) → link.kind ≡ kind → link.carrier ≡ carrier
        → HasEnds link x.now y.now → code_of link.a < code_of link.b → link ≡ result }
{
    let low = x.code();
    let high = y.code();
    let (a, b) = if low < high { (*x, *y) } else { (*y, *x) };
    Link {
        kind,
        a,
        b,
        carrier,
    }
}

/// The link of this kind, these ends in either order, and this carrier, where there can be one on the boards where this
/// is allowed.
#[inline(always)]
pub(crate) fn made(
    allowed: &Allowed,
    kind: Kind,
    x: &Vertex,
    y: &Vertex,
    carrier: Mask,
) -> Option<Link>
    ensures { (board : Board) (colour : Colour) → IsAllowed allowed.now board colour
        → Finds result (IsMade board colour kind x.now y.now carrier) }
{
    let link = ordered(kind, x, y, carrier);
    let is_right = is_link(allowed, &link);
    if is_right { Some(link) } else { None }
}
