//! The moves of a visit that are tried.

ghost use Rattle.std.specs.Prelude.{◌≡◌, ◌≢◌, [], ℕ, ◌<◌, ◌≤◌, ◌⊎◌, true, not, length, map, filter, remove, slice_get, IfOk, IsSomeAnd, MatchOption};
ghost use Rattle.std.specs.List.{All};
ghost use Rattle.hx_board.specs.Positions.{IsEmpty};
ghost use Rattle.hx_board.specs.Sets.{has, IsSubset};
ghost use Rattle.hx_fill.specs.Musts.{IsMust, IsSharedByAll};
ghost use Rattle.hx_fill.specs.Unders.{HasLineFor};
ghost use Rattle.hx_pn.specs.Numbers.{IsNumbers};
ghost use Rattle.hx_ordering.specs.Choices.{IsChildOf};
ghost use Rattle.hx_ordering.specs.Orders.{AreEmptyCells};
ghost use Rattle.hx_ordering.specs.Tries.{Tries, IsUnanswered, HasBetter};

use crate::children::Child;
use crate::marks::hinted_or;
use crate::orders::in_order;
use crate::replies::Replies;
use crate::situations::Situation;
use crate::stones::after;
use crate::unseen_moves::first_numbers;
use hx_board::{Cell, Mask, Memory};
use hx_count::Hints;
use hx_fill::{Must, must, must_without_lines, without_lines};
use hx_linkset::LinkSet;
use hx_pn::Numbers;

/// The moves of a visit.
#[derive(Drop)]
pub struct Moves {
    /// All empty cells, the best moves first.
    pub order: Vec<Cell>,

    /// The moves that must be tried and are not known to lose, the best ones first.
    pub children: Vec<Child>,
}

impl Moves {
    /// The moves that must be tried, by the links of both players: no link of the other player answers them, and no
    /// other move is better. Where all are tried, a move is tried though another one is better.
    pub fn of(
        hints: &Hints,
        replies: &Replies,
        own: &LinkSet,
        others: &LinkSet,
        situation: &Situation,
        tries_all: bool,
    ) -> Result<Moves, Memory>
        ensures each { IfOk result (λ moves. All (IsChildOf situation.now) moves.children.items) }
        ensures among { IfOk result (λ moves.
            All (λ child. IsSharedByAll others.now child.cell) moves.children.items) }
        ensures all { tries_all ≡ true → IfOk result (λ moves. (cell : ℕ)
            → IsUnanswered own.now others.now situation.now cell
            → Tries moves.children.items cell) }
        ensures best { IfOk result (λ moves. (cell : ℕ)
            → IsUnanswered own.now others.now situation.now cell
            → Tries moves.children.items cell
            ⊎ HasBetter own.now others.now situation.now moves.children.items cell) }
        ensures order { IfOk result (λ moves.
            AreEmptyCells own.now.present.board moves.order.items) }
    {
        let earlier = replies.earlier(situation, own.position().empties());
        let order = in_order(own, others, &earlier)?;
        let must = must_try(others, order.as_slice(), tries_all)?;
        let tried = tried_cells(&must);
        let mut children = Vec::with_capacity(own.allocator(), order.len()).map_err(|_| Memory)?;
        for cell in order.as_slice() {
            if !tried.has(*cell) {
                continue;
            }
            let Some(child) = child_of(hints, situation, *cell) else {
                continue;
            };
            children.push(child).map_err(|_| Memory)?;
        }
        Ok(Moves { order, children })
    }

    /// The move at this place among the children is known to lose, and is left out. Where there is no such place,
    /// nothing changes.
    pub fn leave_out(&mut self, place: usize)
        ensures order { self.new.order ≡ self.old.order }
        ensures gone { place < length self.old.children.items
            → self.new.children.items ≡ remove self.old.children.items place }
        ensures beyond { length self.old.children.items ≤ place
            → self.new.children ≡ self.old.children }
    {
        if place < self.children.len() {
            self.children.remove(place);
        }
    }

    /// The moves to these cells are known to lose, and are left out.
    pub fn leave_out_all(&mut self, cells: Mask)
        ensures order { self.new.order ≡ self.old.order }
        ensures left { self.new.children.items
            ≡ filter (λ child. not (has cells child.cell)) self.old.children.items }
    {
        self.children.retain(|child: &Child| !cells.has(child.cell));
    }

    /// The visit after the move at this place has come to these numbers. Where there is no such place, nothing changes.
    pub fn note(&mut self, place: usize, numbers: Numbers)
        requires { IsNumbers numbers }
        ensures order { self.new.order ≡ self.old.order }
        ensures same_cells { map (λ child. child.cell) self.new.children.items
            ≡ map (λ child. child.cell) self.old.children.items }
        ensures same_keys { map (λ child. child.key) self.new.children.items
            ≡ map (λ child. child.key) self.old.children.items }
        ensures noted { place < length self.old.children.items
            → IsSomeAnd (slice_get self.new.children.items place)
            (λ child. child.numbers ≡ numbers) }
        ensures others { (other : ℕ) → other ≢ place
            → slice_get self.new.children.items other ≡ slice_get self.old.children.items other }
    {
        if place < self.children.len() {
            self.children[place].numbers = numbers;
        }
    }
}

/// What must be tried by the other player's links, with a line for each cell than which another one is better, or with
/// none.
fn must_try(others: &LinkSet, order: &[Cell], tries_all: bool) -> Result<Must, Memory>
    ensures must { IfOk result (λ must. IsMust others.now must.threats must.cells must.under) }
    ensures no_lines { IfOk result (λ must. tries_all ≡ true → must.under ≡ []) }
{
    if tries_all {
        return must_without_lines(others);
    }
    must(others, order)
}

/// The cells that must be tried: those without a line.
fn tried_cells(must: &Must) -> Mask
    ensures inside { IsSubset result must.now.cells }
    ensures kept { (cell : ℕ) → has must.now.cells cell ≡ true → ¬ HasLineFor must.now.under cell
        → has result cell ≡ true }
{
    without_lines(must.cells, must.under.items())
}

/// A move, with the numbers of its hint or the first ones. None where the cell holds a stone.
fn child_of(hints: &Hints, situation: &Situation, cell: Cell) -> Option<Child>
    ensures { MatchOption result (¬ IsEmpty situation.now.filled cell)
        (λ child. (child.cell ≡ cell) × IsChildOf situation.now child) }
{
    let Some(there) = after(&situation.filled, situation.to_move, cell) else {
        return None;
    };
    let key = there.key(situation.to_move.other());
    let first = first_numbers(situation.filled.position());
    Some(Child {
        cell,
        key,
        numbers: hinted_or(hints, key, first),
    })
}
