//! Moves that another move is better than.
//!
//! Where the mover takes the better cell, the worse one is dead for the opponent, or one of a captured pair of the
//! mover. What is joined after the move is told by what was joined before it, so no group is flooded again for a move.
//! And a move kills only what it touches, or what is joined with its cell, so most moves need not be tried.

ghost use Rattle.std.specs.Prelude.{◌≡◌, ◌≢◌, ℕ, true, ◌↔◌, IsTrue};
ghost use Rattle.hx_board.specs.Finds.{Finds};
ghost use Rattle.hx_board.specs.Colours.{other_of};
ghost use Rattle.hx_board.specs.Sets.{has};
ghost use Rattle.hx_board.specs.Positions.{IsEmpty};
ghost use Rattle.hx_board.specs.VertexSets.{IsSetOf};
ghost use Rattle.hx_inferior.specs.declared.dominations.Kill.TheVariants.{ByDead, ByPair};
ghost use Rattle.hx_inferior.specs.Inferior.{IsDominated, IsOpenNeighbour};
ghost use Rattle.hx_fill.specs.Unders.{AreKillers};

use crate::makers::{makers_of, partner_of};
use crate::reaches::{reached_around, reached_around_each};
use crate::views::View;
use hx_board::{Cell, Colour, Groups, Mask, Position, Vertex, VertexSet};
use hx_inferior::{Kill, open_around};

/// A position and the player to move, with what is joined for each player.
#[derive(Drop)]
pub(crate) struct BothGroups<'a> {
    position: Position,
    mover: Colour,
    own: Groups,
    others: &'a Groups,
    ghost own_grouped: { own ≡ record { board = position; player = mover } },
    ghost others_grouped: { others.now ≡ record { board = position; player = other_of mover } },
}

impl<'a> BothGroups<'a> {
    /// Of the mover's opponent the groups are known.
    pub(crate) fn of(position: &Position, mover: Colour, others: &'a Groups) -> BothGroups<'a>
        requires { others.now ≡ record { board = position.now; player = other_of mover } }
        ensures position { result.position ≡ position.now }
        ensures mover { result.mover ≡ mover }
    {
        BothGroups {
            position: *position,
            mover,
            own: Groups::of(position, mover),
            others,
        }
    }

    /// The cells that can make a cell dead for the opponent, where the mover takes one of them: its open neighbours, or
    /// any cell where it is dead already. A stone of the mover's joins nothing for the opponent, and takes its own cell
    /// alone from him.
    fn killers_by_dead(&self, cell: Cell, around: VertexSet) -> Mask
        requires empty { IsEmpty self.now.position cell }
        requires around { IsSetOf self.now.position.size
            (IsOpenNeighbour self.now.position (other_of self.now.mover) cell) around }
        ensures { (better : ℕ) → IsDominated self.now.position self.now.mover better cell ByDead
            → has result better ≡ true }
    {
        // The proof takes from here that the position's board is one.
        let _size = self.position.size();
        let others = View::of(&self.position, self.mover.other(), self.others);
        let makers = makers_of(&others, cell, around, Mask::empty());
        if makers.is_dead {
            return self.position.empties();
        }
        around.cells()
    }

    /// The cells that can make a cell part of a pair, where the mover takes one of them: those that an open neighbour
    /// of it, or of a maker of it, is joined with, or any cell where it is part of a pair already. A stone joins only
    /// what was joined with its cell.
    fn killers_by_pair(&self, cell: Cell, around: VertexSet) -> Mask
        requires empty { IsEmpty self.now.position cell }
        requires around { IsSetOf self.now.position.size
            (IsOpenNeighbour self.now.position self.now.mover cell) around }
        ensures { (better partner : ℕ)
            → IsDominated self.now.position self.now.mover better cell (ByPair partner)
            → has result better ≡ true }
    {
        // The proof takes from here that the position's board is one.
        let _size = self.position.size();
        let own = View::of(&self.position, self.mover, &self.own);
        let makers = makers_of(&own, cell, around, self.position.empties());
        match partner_of(&own, cell, makers.cells) {
            Some(_) => self.position.empties(),
            None => {
                let by_makers = reached_around_each(&own, makers.cells);
                reached_around(&own, around).union(by_makers).cells()
            }
        }
    }

    /// The cells that can be better than a cell. Most cells touch nothing that the cell's fate hangs on, and need not
    /// be tried.
    pub(crate) fn killers(&self, worse: Cell) -> Mask
        requires { IsEmpty self.now.position worse }
        ensures { AreKillers self.now.position self.now.mover worse result }
    {
        let own = open_around(&self.position, self.mover, worse);
        let others = open_around(&self.position, self.mover.other(), worse);
        let by_dead = self.killers_by_dead(worse, others);
        let by_pair = self.killers_by_pair(worse, own);
        by_dead.union(by_pair)
    }

    /// Whether the move to the better cell makes the worse one dead for the opponent.
    fn is_dead_after(&self, better: Cell, worse: Cell) -> bool
        requires better { IsEmpty self.now.position better }
        requires worse { IsEmpty self.now.position worse }
        requires differ { better ≢ worse }
        ensures { IsTrue result
            ↔ IsDominated self.now.position self.now.mover better worse ByDead }
    {
        // The proof takes from here that the position's board is one.
        let _size = self.position.size();
        let other = self.mover.other();
        let others = View::after(&self.position, other, self.others, self.mover, better);
        let open = open_around(&self.position, other, worse);
        let around = open.without(Vertex::Of(better));
        let makers = makers_of(&others, worse, around, Mask::empty());
        makers.is_dead
    }

    /// A cell that is a pair with the worse one after the move to the better one.
    fn partner_after(&self, better: Cell, worse: Cell) -> Option<Cell>
        requires better { IsEmpty self.now.position better }
        requires worse { IsEmpty self.now.position worse }
        requires differ { better ≢ worse }
        ensures { Finds result (λ partner.
            IsDominated self.now.position self.now.mover better worse (ByPair partner)) }
    {
        let own = View::after(&self.position, self.mover, &self.own, self.mover, better);
        let around = open_around(&self.position, self.mover, worse);
        let among = self.position.empties().without(better);
        let makers = makers_of(&own, worse, around, among);
        partner_of(&own, worse, makers.cells)
    }

    /// How the move to the better cell kills the worse one.
    pub(crate) fn kill_by(&self, better: Cell, worse: Cell) -> Option<Kill>
        requires better { IsEmpty self.now.position better }
        requires worse { IsEmpty self.now.position worse }
        requires differ { better ≢ worse }
        ensures { Finds result
            (IsDominated self.now.position self.now.mover better worse) }
    {
        if self.is_dead_after(better, worse) {
            return Some(Kill::ByDead);
        }
        match self.partner_after(better, worse) {
            Some(partner) => Some(Kill::ByPair(partner)),
            None => None,
        }
    }
}
