//! What a worker searches with.
//!
//! Each function of a search works with all of this, so it stands in one struct, and what every one of them keeps is
//! one word (`Keeps` of specs/). Whoever knows and the seat are borrowed, so it says too that these are the same
//! borrows.
//!
//! The sets of links are the mover's and the other player's, so they are exchanged before a visit with the other player
//! to move, and again after it (`visits.rt`). They are owned, so that this, and putting one aside for a new one, is
//! done by moves of their fields alone.

ghost use Rattle.std.specs.Prelude.{◌≡◌};

use crate::ways::Way;
use crate::workers::Worker;
use hx_count::CountSeat;

/// A worker with whoever knows of positions, its seat, a workspace and the sets of links that it searches with. Their
/// types are parameters: a proof learns what is left behind a borrow in a struct only where no field of it is declared
/// with memory of its own.
pub(crate) struct Search<'a, K, G, R, W, L> {
    pub(crate) worker: &'a Worker<'a, G, R>,

    /// Who is asked what is known, and told what was found.
    pub(crate) known: &'a mut K,
    pub(crate) seat: &'a mut CountSeat,
    pub(crate) workspace: W,

    /// The links of the player to move.
    pub(crate) own: L,

    /// The links of the other player.
    pub(crate) others: L,

    /// The way down to the visit at hand.
    pub(crate) way: Way,
}

// It says what is left behind the borrows.
impl<'a, K, G, R, W: Drop, L: Drop> Drop for Search<'a, K, G, R, W, L> {
    fn drop(self)
        ensures known { self.exit.1.0.now ≡ self.entry.known.now }
        ensures seat { self.exit.1.1.0.now ≡ self.entry.seat.now }
    {
        let Self {
            worker: _,
            known: _,
            seat: _,
            workspace: _,
            own: _,
            others: _,
            way: _,
        } = self;
    }
}
