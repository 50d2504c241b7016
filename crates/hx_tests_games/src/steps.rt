//! The table of steps beside the plain program, over all positions on the smallest boards.

use crate::links::{or_of, vertices};
use crate::plain_steps::plain_result;
use hx_board::Colour::{Black, White};
use hx_board::{Colour, Groups, Mask, Position, Size, Vertex};
use hx_link::{Kind, Link, Step, result_of};
use hx_test_support::{Draws, SMALL_BOARDS, numbered};
use std::alloc::{AllocError, Global};
use std::process::Abort;
use std::test::Fail;

/// How many links each rule gave.
#[derive(Clone, Copy, Debug, Default)]
struct Given {
    bases: u32,
    over_stones: u32,
    over_cells: u32,
    ors: u32,
}

impl Given {
    fn count(&mut self, step: &Step) {
        let count = match step {
            Step::Base { .. } => &mut self.bases,
            Step::AndStone { .. } => &mut self.over_stones,
            Step::AndCell { .. } => &mut self.over_cells,
            Step::Or { .. } => &mut self.ors,
        };
        *count = count.saturating_add(1);
    }

    /// How many links the rule gave that gave the fewest.
    fn least(&self) -> u32 {
        let over_vertices = self.over_stones.min(self.over_cells);
        self.bases.min(self.ors).min(over_vertices)
    }
}

/// A player on a position, whose steps after some links are tried.
#[derive(Clone, Copy, Debug)]
struct Trial {
    position: Position,
    player: Colour,
    links: [Link; 8],
}

impl Trial {
    /// The table and the plain program give the same.
    fn agrees(&self, rt: &impl Abort, step: &Step, given: &mut Given) {
        let groups = Groups::of(&self.position, self.player);
        let link = result_of(&self.position, self.player, &groups, &self.links, step);
        let plain = plain_result(&self.position, self.player, &self.links, step);
        assert_eq!(rt; link, plain, "{self:?}, {step:?}");
        if link.is_some() {
            given.count(step);
        }
    }

    /// They give the same for all steps of one or two parts, and for all Ors of three.
    fn agrees_on_all(
        &self,
        rt: &impl Abort,
        alloc: Global,
        vertices: &[Vertex; 7],
        given: &mut Given,
    ) -> Result<(), AllocError> {
        for a in vertices {
            for b in vertices {
                self.agrees(rt, &Step::Base { a: *a, b: *b }, given);
            }
        }
        // One place more than there are links.
        for left in 0..9 {
            self.agrees(rt, &or_of(alloc, &[left])?, given);
            for right in 0..9 {
                self.agrees(rt, &Step::AndStone { left, right }, given);
                self.agrees(rt, &Step::AndCell { left, right }, given);
                self.agrees(rt, &or_of(alloc, &[left, right])?, given);
                for third in 0..9 {
                    self.agrees(rt, &or_of(alloc, &[left, right, third])?, given);
                }
            }
        }
        Ok(())
    }
}

/// A drawn link of two of these vertices, on cells of the smallest boards.
fn drawn_link(draws: &mut Draws, vertices: &[Vertex; 7]) -> Link {
    let kinds = [Kind::Full, Kind::Semi];
    let first = draws.below(7);
    let second = (first + 1 + draws.below(6)) % 7;
    let cells = draws.below(16) & draws.below(16);
    let kind = kinds[draws.below(2) as usize];
    Link {
        kind,
        a: vertices[first as usize],
        b: vertices[second as usize],
        carrier: Mask::of(u128::from(cells & 3 | (cells & 12) << 9)),
    }
}

/// The table and the plain program, for a player on a position after drawn links.
fn compare(
    rt: &impl Abort,
    alloc: Global,
    draws: &mut Draws,
    position: &Position,
    player: Colour,
    given: &mut Given,
) -> Result<(), Fail> {
    let vertices = vertices()?;
    let mut links = [drawn_link(draws, &vertices); 8];
    for link in &mut links {
        *link = drawn_link(draws, &vertices);
    }
    let trial = Trial {
        position: *position,
        player,
        links,
    };
    trial.agrees_on_all(rt, alloc, &vertices, given)?;
    Ok(())
}

#[test]
fn steps_on_the_smallest_boards(rt: HostRuntime) -> Result<(), Fail> {
    let mut draws = Draws::new(2026);
    let mut given = Given::default();
    for (rows, cols, positions) in SMALL_BOARDS {
        let size = Size::new(rows, cols).ok_or("size")?;
        if size.all().count() > 4 || cols > 2 {
            continue;
        }
        for number in 0..positions {
            let position = numbered(size, number).ok_or("position")?;
            compare(&rt, rt.alloc(), &mut draws, &position, Black, &mut given)?;
            compare(&rt, rt.alloc(), &mut draws, &position, White, &mut given)?;
        }
    }
    assert!(rt; given.least() >= 20, "{given:?}");
    Ok(())
}
