//! Which further stone of a player would make a cell dead for that player.
//!
//! A stone on b joins two vertices that were not joined exactly where both were joined with b. So with a stone on b a
//! cell is dead where each of its open neighbours is joined with all of them, or is joined with b. To know all such b
//! takes one look at each open neighbour, and no flood. Two cells are a captured pair where each makes the other dead.

ghost use Rattle.std.specs.Prelude.{◌≡◌, ℕ, true, false, IsTrue};
ghost use Rattle.hx_board.specs.Finds.{Finds};
ghost use Rattle.hx_board.specs.Sets.{has};
ghost use Rattle.hx_board.specs.Cells.{OnBoard};
ghost use Rattle.hx_board.specs.Positions.{IsEmpty};
ghost use Rattle.hx_board.specs.Graph.{IsVertex};
ghost use Rattle.hx_board.specs.VertexSets.{IsSetOf};
ghost use Rattle.hx_inferior.specs.Inferior.{IsPair, IsOpenNeighbour};
ghost use Rattle.hx_fill.specs.Makers.{AreMakers, AreMakersAmong, AreVertices, IsNarrowed, AreNarrowed};

use crate::views::View;
use hx_board::{Cell, Mask, Vertex, VertexSet};
use hx_cells::each_vertex;
use hx_inferior::open_around;

/// What is known of an empty cell, for one player.
#[derive(Clone, Copy)]
pub(crate) struct Makers {
    /// The other empty cells, of those that were asked about, on which a stone of the player makes the cell dead, or
    /// leaves it so.
    pub(crate) cells: Mask,

    /// Whether the cell is dead.
    pub(crate) is_dead: bool,
}

/// What is known of an empty cell with these open neighbours, and its makers among some empty cells. The fewer these
/// are, the sooner none of them is left: so a partner's are asked about one cell, and whether a cell is dead about
/// none.
pub(crate) fn makers_of(view: &View, cell: Cell, around: VertexSet, among: Mask) -> Makers
    requires empty { IsEmpty view.now.board cell }
    requires around { IsSetOf view.now.board.size
        (IsOpenNeighbour view.now.board view.now.player cell) around }
    requires among { (n : ℕ) → has among n ≡ true → IsEmpty view.now.board n }
    ensures { AreMakers view.now.board view.now.player cell among result }
{
    let mut makers = Makers {
        is_dead: true,
        cells: among.without(cell),
    };
    narrow_by(view, &mut makers, around);
    makers
}

/// The first of some cells, each of which makes the cell dead, that is a pair with the cell.
pub(crate) fn partner_of(view: &View, cell: Cell, makers: Mask) -> Option<Cell>
    requires empty { IsEmpty view.now.board cell }
    requires makers { AreMakersAmong view.now.board view.now.player cell makers }
    ensures { Finds result (λ other.
        (has makers other ≡ true) × IsPair view.now.board view.now.player cell other) }
{
    let size = view.position().size();
    let mut left = makers;
    while let Some(other) = left.least(size) {
        left = left.without(other);
        let around = open_around(view.position(), view.colour(), other);
        let back = makers_of(view, other, around, Mask::empty().with(cell));
        let is_pair = back.cells.has(cell);
        if is_pair {
            return Some(other);
        }
    }
    None
}

/// Leaves those of the makers that are left after a look at each of some vertices.
fn narrow_by(view: &View, makers: &mut Makers, around: VertexSet)
    requires around { AreVertices view.now.board.size around }
    requires makers { (n : ℕ) → has makers.old.cells n ≡ true → OnBoard view.now.board.size n }
    ensures { AreNarrowed view.now.board view.now.player around 0 makers.old makers.new }
{
    // The proof takes from here that the position's board is one.
    let _size = view.position().size();
    for vertex in each_vertex(around) {
        narrow(view, makers, around, vertex);
        // For most cells no maker is left after a few neighbours.
        if has_none(makers) {
            return;
        }
    }
}

/// Leaves those of the makers that are left after a look at one of some vertices. They are changed in their place: that
/// is done very often, and to write a struct anew and to copy it at once makes the copy wait.
fn narrow(view: &View, makers: &mut Makers, around: VertexSet, vertex: Vertex)
    requires around { AreVertices view.now.board.size around }
    requires vertex { IsVertex view.now.board.size vertex }
    requires makers { (n : ℕ) → has makers.old.cells n ≡ true → OnBoard view.now.board.size n }
    ensures { IsNarrowed view.now.board view.now.player around vertex makers.old makers.new }
{
    // The proof takes from here that the position's board is one.
    let _size = view.position().size();
    let joined = view.joined_with(vertex);
    if around.inside(joined) {
        return;
    }
    makers.is_dead = false;
    makers.cells = makers.cells.meet(joined.cells());
}

/// Whether the cell is not dead and has no maker.
fn has_none(makers: &Makers) -> bool
    ensures dead { IsTrue result → makers.now.is_dead ≡ false }
    ensures cells { IsTrue result → makers.now.cells ≡ 0 }
    ensures none { makers.now.is_dead ≡ false → makers.now.cells ≡ 0 → IsTrue result }
{
    !makers.is_dead && makers.cells.is_empty()
}
