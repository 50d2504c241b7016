//! What one worker has: units of the budget, and loss words that it holds.

ghost use Rattle.std.specs.Prelude.{◌≡◌, ◌<◌, ◌≤◌, ◌^◌, ◌↔◌, IsTrue, IfOk, false, length, replicate, slice_index, sum};
ghost use Rattle.hx_count.specs.Machine.{account, with_unit, with_refusal, holding, releasing, held_in_all};

use hx_board::Memory;
use hx_count::MOST_HELD;
use std::alloc::Global;
use std::marker::Model;

/// A worker's account.
#[derive(Drop)]
pub(crate) struct Account {
    /// The units that were granted to it.
    granted: u64,

    /// Whether a unit was refused to it.
    refused: bool,

    /// For each loss word, how often the worker holds it.
    held: Vec<u32>,
}

impl Model for Account {
    ghost use Rattle.hx_count.specs.Machine.{Account as Holding, account};

    ghost Value = { Holding };

    ghost view = { λ a. account a.granted a.refused a.held.items };
}

impl Account {
    /// An account with so many words, none of which it holds, and without a unit.
    pub(crate) fn start(alloc: Global, words: u32) -> Result<Account, Memory>
        ensures { IfOk result (λ a. a ≡ account 0 false (replicate words 0)) }
    {
        let Ok(held) = vec![in alloc; 0u32; words as usize] else {
            return Err(Memory);
        };
        Ok(Account {
            granted: 0,
            refused: false,
            held,
        })
    }

    /// The units that were granted to it.
    pub(crate) fn granted(&self) -> u64
        ensures { result ≡ self.now.granted }
    {
        self.granted
    }

    /// Grants a unit.
    pub(crate) fn grant(&mut self)
        requires { self.old.granted < 2 ^ 40 }
        ensures { self.new ≡ with_unit self.old }
    {
        self.granted += 1;
    }

    /// Refuses a unit.
    pub(crate) fn refuse(&mut self)
        ensures { self.new ≡ with_refusal self.old }
    {
        self.refused = true;
    }

    /// Whether there is such a word, and fewer than `MOST_HELD` are held in all.
    pub(crate) fn may_hold(&self, word: u32) -> bool
        requires { held_in_all self.now ≤ MOST_HELD }
        ensures { IsTrue result
            ↔ ((word < length self.now.held) × (held_in_all self.now < MOST_HELD)) }
    {
        self.has(word) && total(self.held.as_slice()) < MOST_HELD
    }

    /// Whether there is such a word.
    pub(crate) fn has(&self, word: u32) -> bool
        ensures { IsTrue result ↔ (word < length self.now.held) }
    {
        (word as usize) < self.held.len()
    }

    /// How often it holds the word.
    pub(crate) fn times(&self, word: u32) -> u32
        ensures { result ≡ slice_index self.now.held word }
    {
        if !self.has(word) {
            return 0;
        }
        self.held[word as usize]
    }

    /// Holds a word once more.
    pub(crate) fn hold(&mut self, word: u32)
        requires inside { word < length self.old.held }
        requires few { held_in_all self.old < MOST_HELD }
        ensures { self.new ≡ holding word self.old }
    {
        self.held[word as usize] += 1;
    }

    /// Holds a word once less.
    pub(crate) fn release(&mut self, word: u32)
        requires { 0 < slice_index self.old.held word }
        ensures { self.new ≡ releasing word self.old }
    {
        self.held[word as usize] -= 1;
    }
}

/// How often the words are held in all.
fn total(held: &[u32]) -> u32
    requires { sum held.now ≤ MOST_HELD }
    ensures { result ≡ sum held.now }
{
    held.iter().sum()
}
