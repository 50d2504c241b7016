//! What is new when a reach begins.
//!
//! Where a set was brought to its end before and only stones came since, the stones tell what is
//! new: ends that lost a Full link may have another Or; what an own stone joins has Bases; a stone
//! that stood for its group hands its links over to the vertex that stands for it now; and over a
//! new stone that stands for its group Ands become Full. Nothing else is tried.
//!
//! A call then passes over no list of all links: what stones took away is `dropped` of the set,
//! and Ands run over its `full_at_within`.

use crate::ends::standing_stones;
use crate::pairs::Pairs;
use crate::useful_ands::push_ands_over;
use crate::useful_bases::{push_base, push_bases};
use crate::useful_ors::push_ors_between;
use crate::workspaces::Workspace;
use hx_board::{Groups, Mask, Memory, Position, Vertex, VertexSet};
use hx_cells::each_cell;
use hx_link::Kind;
use hx_linkset::LinkSet;

impl Workspace {
    /// Adds what is possible at first.
    pub(crate) fn begin(&mut self, set: &LinkSet) -> Result<(), Memory> {
        let before = set.before_last_stones();
        if set.count() == 0 || before == *set.position() {
            self.begin_with_all(set)
        } else {
            self.begin_after(set, &before)
        }
    }

    /// Adds what all live links make possible, and all Bases.
    fn begin_with_all(&mut self, set: &LinkSet) -> Result<(), Memory> {
        for index in 0..set.count() {
            if let Some(link) = set.link(index) {
                self.look_at(set, index, &link)?;
            }
        }
        let all = set.position().size().all();
        push_bases(set, &self.ends, &mut self.candidates, all)
    }

    /// Adds what the last stones make possible, where the links that were live before them made
    /// nothing more possible.
    fn begin_after(&mut self, set: &LinkSet, before: &Position) -> Result<(), Memory> {
        self.join_anew(set)?;
        let colour = set.colour();
        let fresh = set.position().stones(colour).minus(before.stones(colour));
        if fresh.is_empty() {
            return Ok(());
        }
        self.hand_over(set, before, fresh)?;
        let near = self.near(set.position(), fresh);
        push_bases(set, &self.ends, &mut self.candidates, near)
    }

    /// Tries Ors of the ends of the Full links that the last stones dropped.
    fn join_anew(&mut self, set: &LinkSet) -> Result<(), Memory> {
        let mut seen = Pairs::none();
        let others = VertexSet::of_cells(set.position().stones(set.colour().other()));
        for index in set.dropped() {
            let Some(link) = set.held(u32::from(*index)) else {
                break;
            };
            if link.kind == Kind::Semi || others.has(link.a) || others.has(link.b) {
                continue;
            }
            if seen.add(&link.a, &link.b) {
                push_ors_between(
                    set,
                    &mut self.candidates,
                    &mut self.or_lists,
                    &link.a,
                    &link.b,
                )?;
            }
        }
        Ok(())
    }

    /// Gives the links of a stone that stands for its group no more to the vertex that now does,
    /// and makes those over a new stone that stands for its group.
    fn hand_over(&mut self, set: &LinkSet, before: &Position, fresh: Mask) -> Result<(), Memory> {
        let position = set.position();
        let groups = Groups::of(before, set.colour());
        let former = standing_stones(before, &groups, before.stones(set.colour()));
        for stone in each_cell(fresh.union(former), position.size()) {
            let stands_for = self.ends.stands_for(position, &stone);
            let at = Vertex::Of(stone);
            if stands_for != at {
                push_base(set, &mut self.candidates, &at, &stands_for)?;
            } else if fresh.has(stone) {
                push_ands_over(set, &self.ends, &mut self.candidates, &stone)?;
            }
        }
        Ok(())
    }

    /// The cells that are joined with one of these stones.
    fn near(&self, position: &Position, stones: Mask) -> Mask {
        let mut near = Mask::empty();
        for stone in each_cell(stones, position.size()) {
            near = near.union(self.ends.reach(&Vertex::Of(stone)).cells());
        }
        near
    }
}
