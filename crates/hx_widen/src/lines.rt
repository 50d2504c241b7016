//! The lines of a node at a widened position, in cell order.

ghost use Rattle.std.specs.Prelude.{IfSome};
ghost use Rattle.hx_board.specs.Positions.{IsEmpty};
ghost use Rattle.hx_book.specs.Sights.{Grows};
ghost use Rattle.hx_widen.specs.Inner.{AreKnown};

use crate::known::Known;
use crate::wider::store_wider;
use hx_board::{Cell, Colour, Mask, Memory, Position};
use hx_book::Proofs;
use hx_cells::each_cell;
use hx_inferior::Kill;
use hx_nodes::line_among;
use hx_tree::{Heading, Line};
use std::alloc::Global;
use std::sync::Wait;

/// The cells that a line by a better cell needs.
pub(crate) fn needed_by(line: &Line) -> Mask {
    match line {
        Line::Child { cell, .. } => Mask::empty().with(*cell),
        Line::Under { cell, better, kill } => {
            let both = Mask::empty().with(*cell).with(*better);
            match kill {
                Kill::ByDead => both,
                Kill::ByPair(partner) => both.with(*partner),
            }
        }
    }
}

/// Makes an entry known of the position after the opponent's move to a cell, where an entry that serves it names the
/// winner. Its place among the known ones.
fn know_next<P: Proofs, R: Wait>(
    rt: &R,
    alloc: Global,
    proofs: &mut P,
    known: &mut Known,
    next: &Position,
    winner: Colour,
) -> Option<u32>
    requires { AreKnown (P.sight proofs.old).list known.old.headings.items known.old.places.items }
    ensures grew { Grows (P.sight proofs.old) (P.sight proofs.new) }
    ensures known { IfSome result (λ _.
        AreKnown (P.sight proofs.new).list known.new.headings.items known.new.places.items) }
{
    // The proof takes from here that the next position's board is one.
    let _size = next.size();
    let _stored = store_wider(rt, alloc, proofs, next, winner, winner);
    let Some(found) = proofs.look(rt, next, winner) else {
        return None;
    };
    let there = Heading {
        position: *next,
        to_move: winner,
        winner: found.winner,
    };
    match known.add(there, found.index) {
        Ok(place) => Some(place),
        Err(Memory) => None,
    }
}

/// A line for each of the cells: one of these that name a better cell, and else one with a child that is made known.
pub(crate) fn lines_at<P: Proofs, R: Wait>(
    rt: &R,
    alloc: Global,
    proofs: &mut P,
    known: &mut Known,
    wide: &Position,
    winner: Colour,
    cells: Mask,
    under: &[Line],
) -> Option<Vec<Line>>
    requires { AreKnown (P.sight proofs.old).list known.old.headings.items known.old.places.items }
    ensures grew { Grows (P.sight proofs.old) (P.sight proofs.new) }
    ensures known { IfSome result (λ _.
        AreKnown (P.sight proofs.new).list known.new.headings.items known.new.places.items) }
{
    let size = wide.size();
    let empties = cells.meet(wide.empties());
    let Ok(mut lines) = Vec::with_capacity(alloc, empties.count() as usize) else {
        return None;
    };
    for cell in each_cell(empties, size) {
        let Some(line) = line_at(rt, alloc, proofs, known, wide, winner, under, cell) else {
            return None;
        };
        if lines.push(line).is_err() {
            return None;
        }
    }
    Some(lines)
}

/// The line of an empty cell.
fn line_at<P: Proofs, R: Wait>(
    rt: &R,
    alloc: Global,
    proofs: &mut P,
    known: &mut Known,
    wide: &Position,
    winner: Colour,
    under: &[Line],
    cell: Cell,
) -> Option<Line>
    requires empty { IsEmpty wide.now cell }
    requires known { AreKnown (P.sight proofs.old).list
        known.old.headings.items known.old.places.items }
    ensures grew { Grows (P.sight proofs.old) (P.sight proofs.new) }
    ensures known { IfSome result (λ _.
        AreKnown (P.sight proofs.new).list known.new.headings.items known.new.places.items) }
{
    if let Some(line) = line_among(under, cell) {
        return Some(line);
    }
    let next = wide.with(winner.other(), cell);
    let Some(child) = know_next(rt, alloc, proofs, known, &next, winner) else {
        return None;
    };
    Some(Line::Child { cell, child })
}
