//! The checker of a node that answers the moves of the opponent.
//!
//! The lines are judged by two tests: that their cells are those to answer in cell order, by one mask and one index,
//! and then each line by itself. No cell is looked up in a list.

ghost use Rattle.std.specs.Prelude.{◌≡◌, ◌↔◌, IsTrue, IfOk, IsOk, ℕ, [], true, slice_get, IfSome};
ghost use Rattle.std.specs.List.{All};
ghost use Rattle.hx_board.specs.Sets.{has};
ghost use Rattle.hx_board.specs.Positions.{IsEmpty};
ghost use Rattle.hx_tree.specs.Answers.{AreInOrder, AreAnswered, HasChild, IsRightAll, cell_of, cells_of};
ghost use Rattle.hx_tree.specs.Named.{IsRightGiven};

use crate::headings::leads;
use crate::lists::Threats;
use crate::nodes::{Heading, Line, Lines};
use crate::steps::{cells_to_answer, links_of};
use hx_board::{Mask, Memory, Position};
use hx_inferior::dominates;
use hx_link::{Link, Steps};
use std::alloc::Global;

/// Whether the opponent of the winner is to move and has a move, and each of his moves is answered: by a threat that it
/// leaves whole, or by a right line.
pub(crate) fn check_all(
    alloc: Global,
    before: &[Heading],
    heading: &Heading,
    steps: &Steps,
    threats: &Threats,
    lines: &Lines,
) -> Result<bool, Memory>
    ensures answers { steps.now ≡ [] → IsOk result }
    ensures right { IfOk result (λ answer. IsTrue answer
        ↔ IsRightAll before.now heading.now steps.now threats.now lines.now) }
{
    if heading.to_move != heading.winner.other() || !has_move(&heading.position) {
        return Ok(false);
    }
    match links_of(alloc, &heading.position, heading.winner, steps.items())? {
        Some(links) => Ok(check_answers(
            before,
            heading,
            links.as_slice(),
            threats.items(),
            lines.items(),
        )),
        None => Ok(false),
    }
}

/// Whether some cell is empty.
fn has_move(position: &Position) -> bool
    ensures { IsTrue result ↔ ((some : ℕ) × IsEmpty position.now some) }
{
    position.empties().least(position.size()).is_some()
}

/// Whether the lines are right, and are those of the moves that break all threats.
fn check_answers(
    before: &[Heading],
    heading: &Heading,
    links: &[Link],
    threats: &[u32],
    lines: &[Line],
) -> bool
    ensures { IsTrue result ↔ AreAnswered before.now heading.now links.now threats.now lines.now }
{
    let Some(cells) = cells_to_answer(&heading.position, links, threats) else {
        return false;
    };
    if !are_lines_of(cells, lines) {
        return false;
    }
    let leaves_a_threat = heading.position.empties().minus(cells);
    let lost = leaves_a_threat.union(cells_with_child(lines));
    are_right(before, heading, lost, lines)
}

/// The cells that lines answer by a child.
fn cells_with_child(lines: &[Line]) -> Mask
    ensures { (cell : ℕ) → (has result cell ≡ true) ↔ HasChild lines.now cell }
{
    let mut answered = Mask::empty();
    for line in lines {
        match line {
            Line::Child { cell, .. } => answered = answered.with(*cell),
            Line::Under { .. } => {}
        }
    }
    answered
}

/// Whether the lines are for the cells of this set, each once and in cell order.
fn are_lines_of(cells: Mask, lines: &[Line]) -> bool
    ensures { IsTrue result ↔ AreInOrder (λ cell. has cells cell ≡ true) (cells_of lines.now) }
{
    let mut answered = Mask::empty();
    let mut first_free = 0;
    for line in lines {
        let cell = line.cell();
        if cell.index() < first_free {
            return false;
        }
        first_free = cell.index() + 1;
        answered = answered.with(cell);
    }
    answered == cells
}

/// Whether each line is right, given the moves of the opponent that lose.
fn are_right(before: &[Heading], heading: &Heading, lost: Mask, lines: &[Line]) -> bool
    requires { All (λ line. IsEmpty heading.now.position (cell_of line)) lines.now }
    ensures { IsTrue result
        ↔ ((k : ℕ) → IfSome (slice_get lines.now k) (IsRightGiven before.now heading.now lost)) }
{
    for line in lines {
        if !check_line(before, heading, lost, line) {
            return false;
        }
    }
    true
}

/// Whether a line is right, given the moves of the opponent that lose.
fn check_line(before: &[Heading], heading: &Heading, lost: Mask, line: &Line) -> bool
    requires { IsEmpty heading.now.position (cell_of line.now) }
    ensures { IsTrue result ↔ IsRightGiven before.now heading.now lost line.now }
{
    match line {
        Line::Child { cell, child } => {
            leads(before, heading, heading.winner.other(), *cell, *child)
        }
        Line::Under { cell, better, kill } => {
            let opponent = heading.winner.other();
            lost.has(*better) && dominates(&heading.position, opponent, *better, *cell, *kill)
        }
    }
}
