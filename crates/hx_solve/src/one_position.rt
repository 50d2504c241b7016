//! The errand of all workers where one position is to be solved.

ghost use Rattle.hx_board.specs.Graph.{HasNoChain};
ghost use Rattle.hx_solve.specs.Searches.{IsProofOf};

use hx_board::{Colour, Position};
use hx_io::Gate;
use hx_pool::{Bench, Done, Errand, Seats};
use hx_tree::Found;
use hx_worker::work_at;
use std::alloc::Global;
use std::sync::Wait;

/// The position and mover that each worker searches.
#[derive(Drop)]
pub(crate) struct OnePosition {
    pub(crate) position: Position,
    pub(crate) to_move: Colour,
}

impl Errand for OnePosition {
    type Found = Found;

    ghost use Rattle.hx_pool.proofs.LaterLists.{found-later};

    ghost proved = { λ errand. IsProofOf errand.position errand.to_move };

    ghost tried = { λ errand. HasNoChain errand.position };

    ghost stays = { λ errand old new found more first.
        found-later old new errand.position errand.to_move found more first };

    fn run<G: Gate, R: Wait>(
        &self,
        rt: &R,
        alloc: Global,
        gate: &G,
        bench: &Bench<'_>,
        seats: Seats,
    ) -> Done<Found> {
        work_at(rt, alloc, gate, bench, seats, &self.position, self.to_move)
    }
}
