//! The calls of hx_inferior beside walks: for each cell of a board and one beside it, on all positions of boards of up
//! to six cells; and for each two and three of them, on all positions of boards of up to four cells, on some of boards
//! of six cells, and on drawn ones of larger boards.

use super::killed_cells::{after_step, are_pair, is_dead, is_dominated, is_empty};
use super::listed_cells::cells_of;
use hx_board::{Cell, Colour, Position, Size};
use hx_inferior::{FillStep, Kill, dead, dominates, fill_one, pair};
use hx_test_support::{Draws, SMALL_BOARDS, numbered};
use std::alloc::Global;
use std::process::Abort;
use std::test::Fail;

/// A player on a position, and how many cells and pairs of cells of each kind were found there and before.
#[derive(Clone, Copy, Debug)]
struct Trial {
    position: Position,
    player: Colour,
    dead: u32,
    pairs: u32,
    dominated: u32,
}

impl Trial {
    fn agrees_on_fill(&self, rt: &impl Abort, step: FillStep) {
        let plain = after_step(&self.position, self.player, &step);
        assert_eq!(rt;
            fill_one(&self.position, self.player, step),
            plain,
            "{self:?}, {step:?}"
        );
    }

    fn agrees_on_kill(&mut self, rt: &impl Abort, better: Cell, worse: Cell, kill: Kill) {
        let plain = is_dominated(&self.position, self.player, better, worse, &kill);
        let found = dominates(&self.position, self.player, better, worse, kill);
        assert_eq!(rt; found, plain, "{self:?}, {better:?}, {worse:?}, {kill:?}");
        self.dominated = self.dominated.saturating_add(found as u32);
    }

    fn agrees_on_one(&mut self, rt: &impl Abort, cell: Cell) {
        let found = dead(&self.position, self.player, cell);
        let plain = is_dead(&self.position, self.player, cell);
        assert_eq!(rt; found, plain, "{self:?}, {cell:?}");
        self.dead = self.dead.saturating_add(found as u32);
        self.agrees_on_fill(rt, FillStep::Other(cell));
        self.agrees_on_fill(rt, FillStep::Dead(cell));
    }

    fn agrees_on_two(&mut self, rt: &impl Abort, a: Cell, b: Cell) {
        let found = pair(&self.position, self.player, a, b);
        let plain = are_pair(&self.position, self.player, a, b);
        assert_eq!(rt; found, plain, "{self:?}, {a:?}, {b:?}");
        self.pairs = self.pairs.saturating_add(found as u32);
        self.agrees_on_fill(rt, FillStep::Pair(a, b));
        self.agrees_on_kill(rt, a, b, Kill::ByDead);
    }

    /// On each one of these cells, for both players.
    fn agrees_on_each(&mut self, rt: &impl Abort, position: &Position, cells: &[Cell]) {
        self.position = *position;
        for player in [Colour::Black, Colour::White] {
            self.player = player;
            for cell in cells {
                self.agrees_on_one(rt, *cell);
            }
        }
    }

    /// On each one, each two and each three of these cells, for both players.
    fn agrees(&mut self, rt: &impl Abort, position: &Position, cells: &[Cell]) {
        self.position = *position;
        for player in [Colour::Black, Colour::White] {
            self.player = player;
            for a in cells {
                self.agrees_on_one(rt, *a);
                for b in cells {
                    self.agrees_on_two(rt, *a, *b);
                    self.agrees_on_thirds(rt, *a, *b, cells);
                }
            }
        }
    }

    /// Where the two are different and empty; else `agrees_on_two` has tried the same answer.
    fn agrees_on_thirds(&mut self, rt: &impl Abort, a: Cell, b: Cell, cells: &[Cell]) {
        if a == b || !is_empty(&self.position, a) || !is_empty(&self.position, b) {
            return;
        }
        for c in cells {
            self.agrees_on_kill(rt, a, b, Kill::ByPair(*c));
        }
    }

    /// Each kind was found this often at the least.
    fn tells(&self, rt: &impl Abort, least: u32) {
        assert!(rt;
            self.dead >= least && self.pairs >= least && self.dominated >= least,
            "{self:?}"
        );
    }
}

/// A trial that has found nothing yet.
fn new_trial(size: Size) -> Trial {
    Trial {
        position: Position::empty(size),
        player: Colour::Black,
        dead: 0,
        pairs: 0,
        dominated: 0,
    }
}

#[test]
fn cells_of_each_small_position(rt: HostRuntime) -> Result<(), Fail> {
    let mut trial = new_trial(Size::new(1, 1).ok_or("size")?);
    for (rows, cols, positions) in SMALL_BOARDS {
        let size = Size::new(rows, cols).ok_or("size")?;
        let cells = cells_of(rt.alloc(), size)?;
        // Two and three cells of the boards of six on every thirteenth position.
        let step = if positions > 100 { 13 } else { 1 };
        for number in 0..positions {
            let position = numbered(size, number).ok_or("position")?;
            if number % step == 0 {
                trial.agrees(&rt, &position, cells.as_slice());
            } else {
                trial.agrees_on_each(&rt, &position, cells.as_slice());
            }
        }
    }
    trial.tells(&rt, 10);
    Ok(())
}

#[test]
fn cells_of_drawn_positions(rt: HostRuntime) -> Result<(), Fail> {
    let mut trial = new_trial(Size::new(1, 1).ok_or("size")?);
    let mut draws = Draws::new(2026);
    for (length, empty) in [(3u8, 4u32), (3, 5), (4, 4), (4, 5)] {
        let size = Size::new(length, length).ok_or("size")?;
        let cells = cells_of(rt.alloc(), size)?;
        for _ in 0..2u8 {
            let position = draws.position(size, empty);
            trial.agrees(&rt, &position, cells.as_slice());
        }
    }
    trial.tells(&rt, 1);
    Ok(())
}
