//! Lines that answer the opponent's moves, in cell order.

ghost use Rattle.std.specs.Prelude.{◌≡◌, ℕ, true, Contains, IfOk, IfSome, MatchOption};
ghost use Rattle.std.specs.List.{All};
ghost use Rattle.hx_board.specs.Sets.{has};
ghost use Rattle.hx_board.specs.Positions.{IsEmpty};
ghost use Rattle.hx_tree.specs.Answers.{cell_of, cells_of};
ghost use Rattle.hx_tree.specs.Trees.{headings_of};
ghost use Rattle.hx_book.specs.Sights.{Grows};
ghost use Rattle.hx_nodes.specs.Lines.{wins_next, NamesBetter, IsLineOf, AreLines};

use hx_board::{Cell, Colour, Mask, Memory, Position};
use hx_book::Proofs;
use hx_cells::each_cell;
use hx_tree::{Line, Lines};
use std::alloc::Global;
use std::sync::Wait;

/// A line for each of the cells, in cell order. None where after the opponent's move to one of them no entry says that
/// the winner wins.
pub(crate) fn lines_for<P: Proofs, R: Wait>(
    rt: &R,
    alloc: Global,
    proofs: &mut P,
    position: &Position,
    winner: Colour,
    cells: Mask,
    under: &[Line],
) -> Result<Option<Lines>, Memory>
    requires inside { (cell : ℕ) → has cells cell ≡ true → IsEmpty position.now cell }
    requires under { All NamesBetter under.now }
    ensures grew { Grows (P.sight proofs.old) (P.sight proofs.new) }
    ensures lines { IfOk result (λ found. IfSome found
        (AreLines (headings_of (P.sight proofs.new).list) (wins_next position.now winner)
        cells under.now)) }
{
    let size = position.size();
    let Ok(mut lines) = Vec::with_capacity(alloc, cells.count() as usize) else {
        return Err(Memory);
    };
    for cell in each_cell(cells, size) {
        let Some(line) = line_for(rt, proofs, position, winner, under, cell) else {
            return Ok(None);
        };
        if lines.push(line).is_err() {
            return Err(Memory);
        }
    }
    Ok(Some(Lines::new(lines)))
}

/// The line of a cell: the one that names a better cell, where there is one, and else one with a child, where an entry
/// says that the winner wins the position after the opponent's move to the cell.
fn line_for<P: Proofs, R: Wait>(
    rt: &R,
    proofs: &mut P,
    position: &Position,
    winner: Colour,
    under: &[Line],
    cell: Cell,
) -> Option<Line>
    requires empty { IsEmpty position.now cell }
    requires under { All NamesBetter under.now }
    ensures grew { Grows (P.sight proofs.old) (P.sight proofs.new) }
    ensures line { IfSome result
        (IsLineOf (headings_of (P.sight proofs.new).list) (wins_next position.now winner)
        under.now cell) }
{
    if let Some(line) = line_among(under, cell) {
        return Some(line);
    }
    let next = position.with(winner.other(), cell);
    let Some(found) = proofs.look(rt, &next, winner) else {
        return None;
    };
    if found.winner != winner {
        return None;
    }
    Some(Line::Child {
        cell,
        child: found.index,
    })
}

/// The line of these that is for a cell. None where there is none.
pub fn line_among(lines: &[Line], cell: Cell) -> Option<Line>
    ensures { MatchOption result
        (¬ Contains (cells_of lines.now) cell)
        (λ line. Contains lines.now line × (cell_of line ≡ cell)) }
{
    for line in lines {
        let is_it = line.cell() == cell;
        if is_it {
            return Some(*line);
        }
    }
    None
}
