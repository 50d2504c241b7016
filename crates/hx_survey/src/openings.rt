//! What the workers are sent for: each goes through the openings of its share first, in cell order, and then through
//! all of them, from the middle of the board. What it finds proved, by itself or by another worker, it passes over, and
//! so it does with an opening whose turned one is proved.

ghost use Rattle.std.specs.Prelude.{◌≡◌, ◌<◌, ℕ, true, IfOk, IfErr};
ghost use Rattle.hx_board.specs.declared.colours.Colour.TheVariants.{White};
ghost use Rattle.hx_board.specs.Cells.{OnBoard};
ghost use Rattle.hx_board.specs.Sets.{has};
ghost use Rattle.hx_openings.specs.Openings.{opening};
ghost use Rattle.hx_limits.specs.Causes.{IsStopped};
ghost use Rattle.hx_share.specs.Readers.{sight_of};
ghost use Rattle.hx_worker.specs.Jobs.{IsReady, IsSameWorker};
ghost use Rattle.hx_survey.specs.Surveys.{HasOpening, HasOpenings, HasOpeningsOf};
ghost use Rattle.hx_survey.specs.Shares.{IsShare};

use crate::order::Order;
use hx_board::{Cell, Colour, Mask, Position, Size};
use hx_book::look_either;
use hx_io::Gate;
use hx_limits::RanOut;
use hx_pool::{Bench, Done, Errand, Seats};
use hx_share::Desk;
use hx_worker::{Job, done_of, job_of, new_sets, work};
use std::alloc::Global;
use std::sync::Wait;

/// The openings of a board, and how many workers go through them.
#[derive(Drop)]
pub(crate) struct Openings {
    pub(crate) size: Size,
    pub(crate) workers: u32,
    ghost some: { 0 < workers },
}

impl Errand for Openings {
    type Found = ();

    ghost use Rattle.hx_survey.specs.Surveys.{HasOpenings};
    ghost use Rattle.hx_pool.proofs.LaterLists.{found-later};

    ghost proved = { λ openings nodes found. HasOpenings nodes openings.size };

    ghost tried = { λ openings. Unit {0} };

    ghost stays = { λ openings old new nothing more has cell on. record {
      board = (has cell on).board;
      which = (has cell on).which;
      found = (has cell on).found;
      first = found-later old new (has cell on).board White (has cell on).found
          more (has cell on).first;
    } };

    fn run<G: Gate, R: Wait>(
        &self,
        rt: &R,
        alloc: Global,
        gate: &G,
        bench: &Bench<'_>,
        seats: Seats,
    ) -> Done<()> {
        let empty = Position::empty(self.size);
        let Ok(sets) = new_sets(alloc, &empty) else {
            return Done {
                book: seats.book,
                counts: seats.counts,
                end: Err(RanOut::Memory),
            };
        };
        let share = self.share(seats.worker);
        let mut job = job_of(bench, seats, &empty, Colour::Black, sets);
        let end = self.go_through_both(rt, alloc, gate, &mut job, share);
        done_of(job, end)
    }
}

/// The position after Black's first move to a cell.
pub(crate) fn opening(size: Size, cell: Cell) -> Position
    requires { OnBoard size cell }
    ensures { result ≡ opening size cell }
{
    Position::empty(size).with(Colour::Black, cell)
}

impl Openings {
    /// Goes through the share of a worker, in cell order, and then through all openings, from the middle of the board
    /// to its edge, up to one that is left open.
    fn go_through_both<G: Gate, R: Wait>(
        &self,
        rt: &R,
        alloc: Global,
        gate: &G,
        job: &mut Job<'_, Desk<'_>>,
        share: Mask,
    ) -> Result<(), RanOut>
        requires ready { IsReady job.old }
        requires share { IsShare self.now.size self.now.workers job.old.worker share }
        ensures ready { IsReady job.new }
        ensures same { IsSameWorker job.old job.new }
        ensures found { IfOk result (λ _. HasOpenings job.new.proofs.seat.seen self.now.size) }
        ensures stopped { IfErr result (IsStopped (sight_of job.new.proofs.seat) job.new.seat) }
    {
        self.go_through(rt, alloc, gate, job, Order::OfCells, share)?;
        self.go_through(rt, alloc, gate, job, Order::FromMiddle, self.size.all())
    }

    /// Goes through these openings in an order, up to one that is left open.
    fn go_through<G: Gate, R: Wait>(
        &self,
        rt: &R,
        alloc: Global,
        gate: &G,
        job: &mut Job<'_, Desk<'_>>,
        order: Order,
        cells: Mask,
    ) -> Result<(), RanOut>
        requires ready { IsReady job.old }
        requires inside { (cell : ℕ) → has cells cell ≡ true → OnBoard self.now.size cell }
        ensures ready { IsReady job.new }
        ensures same { IsSameWorker job.old job.new }
        ensures found { IfOk result
            (λ _. HasOpeningsOf job.new.proofs.seat.seen self.now.size cells) }
        ensures stopped { IfErr result (IsStopped (sight_of job.new.proofs.seat) job.new.seat) }
    {
        // The proof takes from here that the board is one, so that its cells are below 128.
        let _rows = self.size.rows();
        let mut left = cells;
        while let Some(cell) = order.first(self.size, left) {
            self.settle(rt, alloc, gate, job, cell)?;
            left = left.without(cell);
        }
        Ok(())
    }

    /// Proves who wins after one opening, unless that is proved. To find it proved takes no unit.
    fn settle<G: Gate, R: Wait>(
        &self,
        rt: &R,
        alloc: Global,
        gate: &G,
        job: &mut Job<'_, Desk<'_>>,
        cell: Cell,
    ) -> Result<(), RanOut>
        requires ready { IsReady job.old }
        requires on_board { OnBoard self.now.size cell }
        ensures ready { IsReady job.new }
        ensures same { IsSameWorker job.old job.new }
        ensures found { IfOk result (λ _. HasOpening job.new.proofs.seat.seen self.now.size cell) }
        ensures stopped { IfErr result (IsStopped (sight_of job.new.proofs.seat) job.new.seat) }
    {
        let position = opening(self.size, cell);
        if let Some(_either) = look_either(rt, &mut job.proofs, &position, Colour::White) {
            return Ok(());
        }
        job.go_to(alloc, &position, Colour::White)?;
        let _found = work(rt, job, gate).found()?;
        Ok(())
    }
}
