//! The last look at the job's position, where a worker's units are spent: the job's own sets are closed for it.
//!
//! To close a set takes tens of milliseconds on a large board, and a search has no use for it, since it makes the
//! useful links on sets of its own. So work that ends by a proof closes none.

ghost use Rattle.std.specs.Prelude.{◌≡◌, IfOk, IfErr};
ghost use Rattle.hx_board.specs.Graph.{HasChain};
ghost use Rattle.hx_book.specs.Sights.{Grows};
ghost use Rattle.hx_count.specs.Seats.{Seat};
ghost use Rattle.hx_reach.specs.Growth.{IsGrown};
ghost use Rattle.hx_worker.specs.Sets.{AreOn};
ghost use Rattle.hx_tree.specs.Entries.{IsFirstFound};
ghost use Rattle.hx_limits.specs.Causes.{IsSpent, IsStopped, LacksUnit};
ghost use Rattle.hx_worker.specs.Ends.{IsTried, IsThrough, IsOpenSet, WasUnlisted};
ghost use Rattle.hx_worker.specs.Looks.{Looks, IfNothing};

use crate::listed::entry_of;
use hx_board::{Colour, Memory, Position, chain};
use hx_book::Proofs;
use hx_count::Spent;
use hx_limits::RanOut;
use hx_linkset::LinkSet;
use hx_nodes::{Stored, store_chain, store_links, store_turned};
use hx_reach::{Reached, decided};
use hx_search::close;
use hx_tree::Found;
use std::sync::Wait;

/// Closes a set, as far as there is room.
fn close_one(set: &mut LinkSet) -> Result<(), Memory>
    ensures grown { IsGrown set.old set.new }
    ensures through { IfOk result (λ _. IsThrough set.new) }
{
    match close(set) {
        Ok(_) => Ok(()),
        Err(Memory) => Err(Memory),
    }
}

/// A position that is looked at for the last time.
#[derive(Drop)]
struct LastLook<'a, R> {
    rt: &'a R,
    position: &'a Position,
    to_move: Colour,
}

impl<R: Wait> LastLook<'_, R> {
    /// Looks the position and the turned one up.
    fn by_entry<P: Proofs>(&self, proofs: &mut P) -> Result<Option<Found>, RanOut>
        ensures looks { Looks self.now (P.sight proofs.old) (P.sight proofs.new) result }
        ensures unlisted { IfNothing result
            (WasUnlisted P.is_plain (P.sight proofs.old).list (P.sight proofs.new).list
            self.now.position.now self.now.to_move) }
    {
        match store_turned(self.rt, proofs, self.position, self.to_move)? {
            Stored::Done => Ok(Some(entry_of(self.rt, proofs, self.position, self.to_move))),
            Stored::Missing => Ok(None),
        }
    }

    /// Stores the proof by a chain of a player's.
    fn by_chain<P: Proofs>(&self, proofs: &mut P, player: Colour) -> Result<Option<Found>, RanOut>
        ensures looks { Looks self.now (P.sight proofs.old) (P.sight proofs.new) result }
        ensures no_chain { IfNothing result (HasChain self.now.position.now player → ⊥) }
    {
        let has_chain = chain(self.position, player);
        if !has_chain {
            return Ok(None);
        }
        store_chain(self.rt, proofs, self.position, self.to_move, player)?;
        Ok(Some(entry_of(self.rt, proofs, self.position, self.to_move)))
    }

    /// Closes a set, and stores the proof by a link that decides the position.
    fn by_closed<P: Proofs>(
        &self,
        proofs: &mut P,
        set: &mut LinkSet,
    ) -> Result<Option<Found>, RanOut>
        requires { set.old.present.board ≡ self.now.position.now }
        ensures looks { Looks self.now (P.sight proofs.old) (P.sight proofs.new) result }
        ensures set { IsGrown set.old set.new }
        ensures open_set { IfNothing result (IsOpenSet set.new self.now.to_move) }
    {
        close_one(set)?;
        match decided(set, self.to_move) {
            Reached::Open => Ok(None),
            Reached::Decided(index) => {
                store_links(self.rt, proofs, set, self.to_move, index)?;
                Ok(Some(entry_of(self.rt, proofs, self.position, self.to_move)))
            }
        }
    }

    /// What the proofs, the chains and the links of the closed sets say of the position.
    fn decide<P: Proofs>(
        &self,
        proofs: &mut P,
        black: &mut LinkSet,
        white: &mut LinkSet,
    ) -> Result<Option<Found>, RanOut>
        requires { AreOn self.now.position.now black.old white.old }
        ensures looks { Looks self.now (P.sight proofs.old) (P.sight proofs.new) result }
        ensures black { IsGrown black.old black.new }
        ensures white { IsGrown white.old white.new }
        ensures tried { IfNothing result
            (IsTried self.now.position.now self.now.to_move black.new white.new) }
        ensures unlisted { IfNothing result
            (WasUnlisted P.is_plain (P.sight proofs.old).list (P.sight proofs.new).list
            self.now.position.now self.now.to_move) }
    {
        if let Some(found) = self.by_entry(proofs)? {
            return Ok(Some(found));
        }
        if let Some(found) = self.by_chain(proofs, Colour::Black)? {
            return Ok(Some(found));
        }
        if let Some(found) = self.by_chain(proofs, Colour::White)? {
            return Ok(Some(found));
        }
        if let Some(found) = self.by_closed(proofs, black)? {
            return Ok(Some(found));
        }
        self.by_closed(proofs, white)
    }
}

/// The end of the work where no further unit was granted: by what decides the position after all, or by that refusal.
pub(crate) fn close_and_end<P: Proofs, R: Wait>(
    rt: &R,
    proofs: &mut P,
    position: &Position,
    to_move: Colour,
    black: &mut LinkSet,
    white: &mut LinkSet,
    spent: Spent,
) -> Result<Found, RanOut>
    requires { AreOn position.now black.old white.old }
    ensures grew { Grows (P.sight proofs.old) (P.sight proofs.new) }
    ensures black { IsGrown black.old black.new }
    ensures white { IsGrown white.old white.new }
    ensures found { IfOk result (IsFirstFound (P.sight proofs.new).list position.now to_move) }
    ensures stopped { (seat : Seat) → IsSpent seat spent
        → IfErr result (IsStopped (P.sight proofs.new) seat) }
    ensures tried { IfErr result (λ why. LacksUnit why
        → IsTried position.now to_move black.new white.new) }
    ensures unlisted { IfErr result (λ why. LacksUnit why
        → WasUnlisted P.is_plain (P.sight proofs.old).list (P.sight proofs.new).list position.now
        to_move) }
{
    let look = LastLook {
        rt,
        position,
        to_move,
    };
    match look.decide(proofs, black, white)? {
        Some(found) => Ok(found),
        None => Err(RanOut::Budget(spent)),
    }
}
