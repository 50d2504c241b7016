//! Lines for moves that need no answer of their own, since another move is better.
//!
//! The cells come one by one in a given order, which is that in which a search tries them: so it keeps the moves that
//! it likes best. A cell that has no line when it comes gives one to each cell that it dominates, unless that cell has
//! one or is the better one of a line. So no better cell ever gets a line itself.
//!
//! By cell order a quarter more units were searched on a hard opening of 7 by 7. The contract tells which better cell
//! is kept, so a body that passes over the order is refused.

ghost use Rattle.std.specs.Prelude.{◌≡◌, ◌≢◌, ℕ, ◌+◌, ◌++◌, ◌∷◌, [], List, length, slice_get, true, false, IfOk, OnOk};
ghost use Rattle.std.specs.declared.option.Option.{Option};
ghost use Rattle.std.specs.declared.option.Option.TheVariants.{Some};
ghost use Rattle.hx_board.specs.Colours.{other_of};
ghost use Rattle.hx_board.specs.Sets.{has, remove, difference, IsSubset};
ghost use Rattle.hx_board.specs.Cells.{OnBoard};
ghost use Rattle.hx_board.specs.Positions.{IsEmpty};
ghost use Rattle.hx_tree.specs.declared.nodes.Line.TheVariants.{Under};
ghost use Rattle.hx_fill.specs.declared.choices.Better.{Better as Given};
ghost use Rattle.hx_fill.specs.Unders.{AreEmpties, AreUnder, LeaveNoneDominated, AreByOrder, AreSetsOf, HoldDominated, AreKilled, AreWithKiller, IsSifted, NoneWaits, Comes, AreGiven, AddsLine, AreLinesFor};

use crate::candidates::candidates_of;
use crate::choices::{Better, Choices};
use crate::dominations::BothGroups;
use hx_board::{CELLS, Cell, Colour, Groups, Mask, Memory, Position, Size};
use hx_cells::each_cell;
use hx_tree::{Line, Lines};
use std::alloc::Global;

/// Which cells get a line, as one cell after the other comes.
#[derive(Drop)]
struct Sieve {
    /// The cells that it is about.
    cells: Mask,

    /// For each cell with a line the better one.
    choices: Choices,

    /// The cells without a line.
    without_line: Mask,

    /// Those of them that did not come yet.
    waiting: Mask,

    /// The better cells of the lines.
    betters: Mask,
}

/// Lines for the cells, among some empty ones, than which another one of these is better for the mover. They come
/// in the order, and then, in cell order, those that the order leaves out. The groups are those of the mover's
/// opponent.
pub(crate) fn under_lines(
    alloc: Global,
    position: &Position,
    mover: Colour,
    others: &Groups,
    cells: Mask,
    order: &[Cell],
) -> Result<Lines, Memory>
    requires cells { AreEmpties position.now cells }
    requires others { others.now ≡ record { board = position.now; player = other_of mover } }
    ensures under { IfOk result (λ lines. AreUnder position.now mover cells lines) }
    ensures none_dominated { IfOk result (λ lines.
        LeaveNoneDominated position.now mover cells lines) }
    ensures order { IfOk result (λ lines. AreByOrder position.now mover cells order.now lines) }
{
    let both = BothGroups::of(position, mover, others);
    let size = position.size();
    let candidates = candidates_of(&both, size, cells);
    let mut sieve = Sieve::of(cells);
    sieve.go_by_order(&both, size, &candidates, order);
    sieve.go_on(&both, size, &candidates);
    sieve.lines(alloc, size)
}

impl Sieve {
    /// Before the first cell comes.
    fn of(cells: Mask) -> Sieve
        ensures cells { result.cells ≡ cells }
        ensures without_line { result.without_line ≡ cells }
        ensures waiting { result.waiting ≡ cells }
        ensures betters { result.betters ≡ 0 }
    {
        Sieve {
            cells,
            choices: Choices::none(),
            without_line: cells,
            waiting: cells,
            betters: Mask::empty(),
        }
    }

    /// The cells of the order come.
    fn go_by_order(
        &mut self,
        both: &BothGroups<'_>,
        size: Size,
        candidates: &[Mask; CELLS],
        order: &[Cell],
    )
        requires size { both.now.position.size ≡ size }
        requires cells { AreEmpties both.now.position self.old.cells }
        requires candidates { HoldDominated both.now.position both.now.mover self.old.cells 0
            candidates.now }
        requires sifted { IsSifted both.now.position both.now.mover self.old.cells order.now
            self.old.choices self.old.without_line self.old.waiting self.old.betters }
        ensures cells { self.new.cells ≡ self.old.cells }
        ensures sifted { IsSifted both.now.position both.now.mover self.new.cells order.now
            self.new.choices self.new.without_line self.new.waiting self.new.betters }
        ensures none_waits { NoneWaits order.now (length order.now) self.new.waiting }
    {
        for cell in order {
            self.come_if_waiting(both, size, candidates, *cell);
        }
    }

    /// The other cells come, in cell order.
    fn go_on(&mut self, both: &BothGroups<'_>, size: Size, candidates: &[Mask; CELLS])
        requires size { both.now.position.size ≡ size }
        requires cells { AreEmpties both.now.position self.old.cells }
        requires candidates { HoldDominated both.now.position both.now.mover self.old.cells 0
            candidates.now }
        requires inside { AreSetsOf self.old.cells self.old.without_line self.old.waiting }
        ensures cells { self.new.cells ≡ self.old.cells }
        ensures sifted { (order : List ℕ) → NoneWaits order (length order) self.old.waiting
            → IsSifted both.now.position both.now.mover self.old.cells order
            self.old.choices self.old.without_line self.old.waiting self.old.betters
            → IsSifted both.now.position both.now.mover self.new.cells order
            self.new.choices self.new.without_line self.new.waiting self.new.betters }
        ensures none_waits { (n : ℕ) → has self.new.waiting n ≡ false }
    {
        while let Some(cell) = self.waiting.least(size) {
            self.come(both, size, candidates, cell);
        }
    }

    /// A cell comes at its place in the order, where it still waits.
    fn come_if_waiting(
        &mut self,
        both: &BothGroups<'_>,
        size: Size,
        candidates: &[Mask; CELLS],
        cell: Cell,
    )
        requires size { both.now.position.size ≡ size }
        requires cells { AreEmpties both.now.position self.old.without_line }
        requires candidates { HoldDominated both.now.position both.now.mover
            self.old.without_line 0 candidates.now }
        requires inside { IsSubset self.old.waiting self.old.without_line }
        ensures cells { self.new.cells ≡ self.old.cells }
        ensures goes_on { (order : List ℕ) (place : ℕ) → slice_get order place ≡ Some cell
            → NoneWaits order place self.old.waiting
            → IsSifted both.now.position both.now.mover self.old.cells order
            self.old.choices self.old.without_line self.old.waiting self.old.betters
            → IsSifted both.now.position both.now.mover self.old.cells order
            self.new.choices self.new.without_line self.new.waiting self.new.betters
            × NoneWaits order (place + 1) self.new.waiting }
    {
        if !self.waiting.has(cell) {
            return;
        }
        self.come(both, size, candidates, cell);
    }

    /// A cell comes.
    fn come(&mut self, both: &BothGroups<'_>, size: Size, candidates: &[Mask; CELLS], better: Cell)
        requires size { both.now.position.size ≡ size }
        requires cells { AreEmpties both.now.position self.old.without_line }
        requires candidates { HoldDominated both.now.position both.now.mover
            self.old.without_line 0 candidates.now }
        requires better { has self.old.without_line better ≡ true }
        ensures cells { self.new.cells ≡ self.old.cells }
        ensures comes { Comes both.now.position both.now.mover better
            self.old.choices self.old.without_line self.old.waiting self.old.betters
            self.new.choices self.new.without_line self.new.waiting self.new.betters }
    {
        let index = better.index() as usize;
        let free = self.without_line.minus(self.betters).without(better);
        let possible = free.meet(candidates[index]);
        let killed = kill_all(&mut self.choices, both, size, better, possible);
        self.without_line = self.without_line.minus(killed);
        self.waiting = self.waiting.minus(killed).without(better);
        self.betters = with_killer(self.betters, better, killed);
    }

    /// The lines, in cell order.
    fn lines(&self, alloc: Global, size: Size) -> Result<Lines, Memory>
        requires on_board { (n : ℕ) → has self.now.cells n ≡ true → OnBoard size n }
        requires given { AreGiven self.now.choices
            (difference self.now.cells self.now.without_line) }
        ensures { IfOk result (λ lines. AreLinesFor self.now.choices
            (difference self.now.cells self.now.without_line) 0 lines) }
    {
        let mut lines = Vec::new(alloc);
        let with_line = self.cells.minus(self.without_line);
        for cell in each_cell(with_line, size) {
            self.add_line(&mut lines, cell)?;
        }
        Ok(Lines::new(lines))
    }

    /// Adds the line for a cell, where it got a better one.
    fn add_line(&self, lines: &mut Vec<Line>, cell: Cell) -> Result<(), Memory>
        ensures { OnOk result (AddsLine self.now.choices cell lines.old.items lines.new.items) }
    {
        match self.choices.get(cell) {
            None => Ok(()),
            Some(better) => push(lines, cell, &better),
        }
    }
}

/// Gives each of some cells that the better one dominates that one, and tells which cells these are.
fn kill_all(
    choices: &mut Choices,
    both: &BothGroups<'_>,
    size: Size,
    better: Cell,
    cells: Mask,
) -> Mask
    requires size { both.now.position.size ≡ size }
    requires cells { AreEmpties both.now.position cells }
    requires better { IsEmpty both.now.position better }
    requires differ { has cells better ≡ false }
    ensures { AreKilled both.now.position both.now.mover better cells 0
        choices.old choices.new result }
{
    let mut killed = Mask::empty();
    for worse in each_cell(cells, size) {
        killed = kill_one(choices, both, better, worse, killed);
    }
    killed
}

/// Gives a cell the better one where that dominates it. The cell is added to those that were killed before.
fn kill_one(
    choices: &mut Choices,
    both: &BothGroups<'_>,
    better: Cell,
    worse: Cell,
    killed: Mask,
) -> Mask
    requires better { IsEmpty both.now.position better }
    requires worse { IsEmpty both.now.position worse }
    requires differ { better ≢ worse }
    ensures { (cells left : ℕ) (before : List (Option Given)) → has cells worse ≡ true
        → AreKilled both.now.position both.now.mover better cells left before choices.old killed
        → AreKilled both.now.position both.now.mover better cells (remove left worse) before
        choices.new result }
{
    match both.kill_by(better, worse) {
        None => killed,
        Some(kill) => {
            choices.put(worse, Better { cell: better, kill });
            killed.with(worse)
        }
    }
}

/// The better cells, with a further one if it killed some cell.
fn with_killer(betters: Mask, better: Cell, killed: Mask) -> Mask
    ensures { AreWithKiller betters better killed result }
{
    if killed.is_empty() {
        betters
    } else {
        betters.with(better)
    }
}

/// Adds the line for a cell.
fn push(lines: &mut Vec<Line>, cell: Cell, better: &Better) -> Result<(), Memory>
    ensures { OnOk result (lines.new.items
        ≡ lines.old.items ++ Under cell better.now.cell better.now.kill ∷ []) }
{
    if lines.reserve(1).is_err() {
        return Err(Memory);
    }
    lines.push_reserved(Line::Under {
        cell,
        better: better.cell,
        kill: better.kill,
    });
    Ok(())
}
