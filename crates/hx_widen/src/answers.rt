//! Proofs that whichever move the opponent makes, a player wins after it. They need the carriers of the threats, what
//! some proofs after moves of the opponent's need, so chosen that each other move is outside one of them, and the cells
//! of the lines that name a better cell.
//!
//! The functions have no struct as a worker's have: each needs others of the list of proofs, the position and the set
//! of links. Each that has the list promises that it grew, each that stores also what ran out, and widen_all alone that
//! a position is served.

ghost use Rattle.std.specs.Prelude.{◌≡◌, ℕ, true, IfOk, IfErr};
ghost use Rattle.hx_board.specs.Colours.{other_of};
ghost use Rattle.hx_board.specs.Positions.{IsEmpty};
ghost use Rattle.hx_board.specs.Sets.{has};
ghost use Rattle.hx_fill.specs.Musts.{IsMust};
ghost use Rattle.hx_book.specs.Sights.{Grows};
ghost use Rattle.hx_limits.specs.Causes.{IsUnstored};
ghost use Rattle.hx_widen.specs.Wide.{IsServedIf};

use crate::known::{Known, store_known};
use crate::lines::{lines_at, needed_by};
use crate::widened::widened;
use crate::wider::{end_of, store_wider};
use hx_board::{CELLS, Cell, Colour, Mask, Position};
use hx_book::Proofs;
use hx_cells::each_cell;
use hx_fill::{Must, must, without_lines};
use hx_limits::RanOut;
use hx_linkset::LinkSet;
use hx_nodes::{Stored, store_answers};
use hx_tree::{Heading, Line, Lines, Node, Rule, Threats};
use std::alloc::Global;
use std::sync::Wait;

/// What the proofs after the opponent's moves to these cells need. A move outside what another's proof needs is
/// answered by that. None where a move has no answer.
fn needed_after<P: Proofs, R: Wait>(
    rt: &R,
    proofs: &mut P,
    position: &Position,
    winner: Colour,
    cells: Mask,
) -> Option<Mask>
    ensures grew { Grows (P.sight proofs.old) (P.sight proofs.new) }
{
    let size = position.size();
    let mut needed = Mask::empty();
    let mut left = cells.meet(position.empties());
    for _ in 0..CELLS {
        let Some(cell) = left.least(size) else {
            break;
        };
        let Some(empties) = empties_after(rt, proofs, position, winner, cell) else {
            return None;
        };
        needed = needed.union(empties);
        left = left.without(cell).meet(empties);
    }
    Some(needed)
}

/// The empty cells of the entry that serves the position after the opponent's move to a cell.
fn empties_after<P: Proofs, R: Wait>(
    rt: &R,
    proofs: &mut P,
    position: &Position,
    winner: Colour,
    cell: Cell,
) -> Option<Mask>
    ensures grew { Grows (P.sight proofs.old) (P.sight proofs.new) }
{
    let is_empty = position.empties().has(cell);
    if !is_empty {
        return None;
    }
    let next = position.with(winner.other(), cell);
    match proofs.look_wider(rt, &next, winner, winner) {
        Some(wider) => Some(wider.position.empties()),
        None => None,
    }
}

/// What these threats need.
fn needed_by_threats(set: &LinkSet, threats: &[u32]) -> Mask {
    let mut needed = Mask::empty();
    for threat in threats {
        needed = needed.union(set.carrier(*threat));
    }
    needed
}

/// What these lines need.
fn needed_by_lines(lines: &[Line]) -> Mask {
    let mut needed = Mask::empty();
    for line in lines {
        needed = needed.union(needed_by(line));
    }
    needed
}

/// The widened position.
fn position_for<P: Proofs, R: Wait>(
    rt: &R,
    proofs: &mut P,
    set: &LinkSet,
    found: &Must,
) -> Option<Position>
    ensures grew { Grows (P.sight proofs.old) (P.sight proofs.new) }
{
    let winner = set.colour();
    let position = set.position();
    let under = found.under.items();
    let tried = without_lines(found.cells, under);
    let Some(after) = needed_after(rt, proofs, position, winner, tried) else {
        return None;
    };
    let at_once = needed_by_threats(set, found.threats.items()).union(needed_by_lines(under));
    widened(position, winner, after.union(at_once))
}

/// Stores the answers where the opponent has all cells that they do not need.
fn all_wide<P: Proofs, R: Wait>(
    rt: &R,
    proofs: &mut P,
    set: &LinkSet,
    found: &Must,
) -> Result<(), RanOut>
    requires { IsMust set.now found.now.threats found.now.cells found.now.under }
    ensures grew { Grows (P.sight proofs.old) (P.sight proofs.new) }
    ensures stopped { IfErr result (IsUnstored (P.sight proofs.new)) }
{
    let alloc = set.allocator();
    let winner = set.colour();
    let Some(position) = position_for(rt, proofs, set, found) else {
        return Ok(());
    };
    let (cells, under) = (found.cells, found.under.items());
    let mut known = Known::new(alloc);
    let Some(lines) = lines_at(
        rt, alloc, proofs, &mut known, &position, winner, cells, under,
    ) else {
        return Ok(());
    };
    let derived = set.derivation(found.threats.items())?;
    let heading = Heading {
        position,
        to_move: winner.other(),
        winner,
    };
    let rule = Rule::All {
        steps: derived.steps,
        threats: Threats::new(derived.places),
        lines: Lines::new(lines),
    };
    store_known(rt, alloc, proofs, &known, Node { heading, rule })?;
    Ok(())
}

/// Stores an entry of each position after a move of the opponent's to one of these cells, where an entry that serves it
/// names the winner.
fn store_each<P: Proofs, R: Wait>(
    rt: &R,
    alloc: Global,
    proofs: &mut P,
    position: &Position,
    winner: Colour,
    cells: Mask,
) -> Result<(), RanOut>
    requires { (cell : ℕ) → has cells cell ≡ true → IsEmpty position.now cell }
    ensures grew { Grows (P.sight proofs.old) (P.sight proofs.new) }
    ensures stopped { IfErr result (IsUnstored (P.sight proofs.new)) }
{
    let size = position.size();
    for cell in each_cell(cells, size) {
        let next = position.with(winner.other(), cell);
        store_wider(rt, alloc, proofs, &next, winner, winner)?;
    }
    Ok(())
}

/// Stores that a set's player wins with the opponent to move, where entries say so of the positions after the moves
/// that have to be tried: a proof that serves the position, or one of the position itself. It is Missing where the
/// board is full, where the list is plain, or where after one of these moves no entry says so, or an entry of that very
/// position names the opponent.
pub fn widen_all<P: Proofs, R: Wait>(
    rt: &R,
    proofs: &mut P,
    set: &LinkSet,
    order: &[Cell],
) -> Result<Stored, RanOut>
    ensures grew { Grows (P.sight proofs.old) (P.sight proofs.new) }
    ensures served { IfOk result (IsServedIf P.is_plain (P.sight proofs.new).list
        set.now.present.board (other_of set.now.player)) }
    ensures stopped { IfErr result (IsUnstored (P.sight proofs.new)) }
{
    if proofs.plain() {
        return Ok(Stored::Missing);
    }
    let found = must(set, order)?;
    let tried = all_wide(rt, proofs, set, &found);
    let to_move = set.colour().other();
    if let Stored::Done = end_of(rt, proofs, set.position(), to_move, tried)? {
        return Ok(Stored::Done);
    }
    let alloc = set.allocator();
    let cells = without_lines(found.cells, found.under.items());
    store_each(rt, alloc, proofs, set.position(), set.colour(), cells)?;
    store_answers(rt, proofs, set, found)
}
