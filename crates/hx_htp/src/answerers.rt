//! Who answers which player wins a position.
//!
//! An answerer works with so many units and slots for each question, and may run out of them. It keeps an account of
//! how often it did: a contract that merely allowed an open question would be met by an answerer that never works.

ghost use Rattle.std.specs.Prelude.{IfOk};
ghost use Rattle.std.specs.Thread.{IsSync};
ghost use Rattle.hx_htp.specs.Accounts.{Account, Continues, MayTell};

use hx_board::{Colour, Memory, Position};
use std::sync::Wait;
use std::thread::Threads;

/// What is told of a position and the player to move.
#[derive(Clone, Copy, Debug, PartialEq, Eq)]
pub enum Told {
    /// This player wins.
    Winner(Colour),
    /// This many units, which are the budget, were used up.
    Budget(u64),
    /// This many slots for proofs, which are all, were used up.
    Slots(u32),
}

/// Who answers which player wins a position.
pub trait Answerer {
    /// Its budget and its slots, and how often it told that each of them was used up.
    ghost account: { Self → Account };

    /// Tells who wins a position with this player to move, or what was used up. Fails only where memory is wanting.
    fn solve<R: Threads + Wait + Sync>(
        &mut self,
        rt: &R,
        position: &Position,
        to_move: Colour,
    ) -> Result<Told, Memory>
        // The bound `Sync` again: inside a trait's method it is known only where a clause says it.
        requires { IsSync R.row }
        // Budget and slots stay and no count falls, after want of memory too.
        ensures continues { Continues (account self.old) (account self.new) }
        // A winner that is named wins. What is told to be used up is what there was of it, its count rose in this call,
        // and the position is not small under the budget.
        ensures told { IfOk result
            (MayTell (account self.old) (account self.new) position.now to_move) };
}
