//! The openings with which each worker begins, so that at first no two look at the same one.

ghost use Rattle.std.specs.Prelude.{◌≡◌, ◌↔◌, IsTrue};
ghost use Rattle.hx_board.specs.Cells.{OnBoard};
ghost use Rattle.hx_survey.specs.Shares.{place_of, IsInShare, IsShare};

use crate::openings::Openings;
use hx_board::{Cell, Mask, Size};
use hx_cells::each_cell;

impl Openings {
    /// The share of worker w of n: of all openings in cell order, counted from 0, those at the places w, w + n, w + 2n
    /// and so on.
    pub(crate) fn share(&self, worker: u32) -> Mask
        ensures { IsShare self.now.size self.now.workers worker result }
    {
        let mut share = Mask::empty();
        for cell in each_cell(self.size.all(), self.size) {
            if self.is_in_share(worker, cell) {
                share = share.with(cell);
            }
        }
        share
    }

    /// Whether the opening on a cell of the board is in the share of a worker.
    fn is_in_share(&self, worker: u32, cell: Cell) -> bool
        requires { OnBoard self.now.size cell }
        ensures { IsTrue result ↔ IsInShare self.now.size self.now.workers worker cell }
    {
        match place_of(self.size, cell).checked_sub(worker) {
            Some(later) => later % self.workers == 0,
            None => false,
        }
    }
}

/// The place of a cell of the board among all in cell order, from 0.
fn place_of(size: Size, cell: Cell) -> u32
    requires { OnBoard size cell }
    ensures { result ≡ place_of size cell }
{
    u32::from(cell.row()) * u32::from(size.cols()) + u32::from(cell.col())
}
