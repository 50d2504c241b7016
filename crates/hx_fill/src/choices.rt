//! Which better cell each cell got.
//!
//! It is looked up by the cell's index, so that lines come in cell order in whatever order the better cells were gone
//! through.

ghost use Rattle.std.specs.Prelude.{◌≡◌, ◌≢◌, ℕ};
ghost use Rattle.std.specs.declared.option.Option.TheVariants.{None, Some};
ghost use Rattle.hx_fill.specs.Unders.{better_for};

use hx_board::{CELLS, Cell};
use hx_inferior::Kill;
use std::marker::Model;

/// A better cell, and how the move to it kills the worse one.
#[derive(Clone, Copy)]
pub(crate) struct Better {
    pub(crate) cell: Cell,
    pub(crate) kill: Kill,
}

/// For each cell the better one that it got, if any. Contracts see it as the list of these.
#[derive(Drop)]
pub(crate) struct Choices {
    betters: [Option<Better>; CELLS],
}

impl Model for Choices {
    ghost use Rattle.std.specs.Prelude.{◌≡◌, List, length};
    ghost use Rattle.std.specs.declared.option.Option.{Option};
    ghost use Rattle.hx_board.specs.declared.cells.TheConstants.{CELLS};
    ghost use Rattle.hx_fill.specs.declared.choices.Better.{Better};

    ghost Value = { List (Option Better) };

    ghost view = { λ c. c.betters };

    ghost invariant = { λ c. length c.betters ≡ CELLS };
}

impl Choices {
    /// No cell has one.
    pub(crate) fn none() -> Choices {
        Choices {
            betters: [None; CELLS],
        }
    }

    /// The better cell of a cell.
    pub(crate) fn get(&self, cell: Cell) -> Option<Better>
        ensures { result ≡ better_for self.now cell }
    {
        self.betters[cell.index() as usize]
    }

    /// Gives a cell a better one, in place of the one that it may have.
    pub(crate) fn put(&mut self, cell: Cell, better: Better)
        ensures put { better_for self.new cell ≡ Some better }
        ensures others { (n : ℕ) → n ≢ cell → better_for self.new n ≡ better_for self.old n }
    {
        self.betters[cell.index() as usize] = Some(better);
    }
}
