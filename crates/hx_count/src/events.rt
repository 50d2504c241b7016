//! What happens to the counts, one event at a time.

/// How often one worker may hold loss words, over all words.
pub const MOST_HELD: u32 = 1024;

/// One event of the counts. A worker goes by its number, and so does a loss word.
#[derive(Clone, Copy, PartialEq, Eq, Debug)]
pub enum CountEvent {
    /// The worker asks for a unit of the budget.
    Spend { worker: u32 },

    /// The worker holds the word once more.
    Hold { worker: u32, word: u32 },

    /// The worker holds the word once less.
    Release { worker: u32, word: u32 },

    /// The worker looks how often all workers together hold the word.
    Look { worker: u32, word: u32 },
}
