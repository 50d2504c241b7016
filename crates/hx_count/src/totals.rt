//! What is told of the counts when they are closed.

ghost use Rattle.std.specs.Prelude.{◌≡◌, ◌+◌, ◌<◌, ◌^◌, sum, drop};
ghost use Rattle.std.specs.Slots.{slots_items, slots_len, IsFull};

use atomic_table::Closed;
use std::alloc::Global;

/// The sums over all workers.
#[derive(Clone, Copy, PartialEq, Eq, Debug)]
pub struct Totals {
    /// How many units were granted.
    pub granted: u64,

    /// How often loss words are still held.
    pub held: u64,
}

/// The loss words, added up: all words but the first.
pub(crate) fn sum_of_losses(closed: &Closed<(), Global>, words: u32) -> u64
    requires closed { (slots_len closed.now.words ≡ words + 1) × IsFull closed.now.words }
    requires small { sum (drop 1 (slots_items closed.now.words)) < 2 ^ 63 }
    ensures { result ≡ sum (drop 1 (slots_items closed.now.words)) }
{
    let mut sum = 0;
    for word in 0..words {
        sum += closed.word(word as usize + 1);
    }
    sum
}
