//! Proof numbers that workers leave for one another, as a search depth first by proof numbers keeps them in a table of
//! positions (Nagai, 2002). They are hints: a word may be overwritten at any time, also by the numbers of another
//! position, and no proof rests on one.
//!
//! A word has the two numbers of a hint, so what is read was left by one worker, and a mark of the position that they
//! are of: the upper twenty binary digits of its key, whose lower ones find the word. The word of a position with
//! another mark reads as one that nobody wrote. Without marks a search fails once it has more units than words
//! (docs/tried.md).
//!
//! No search leaves a word of zeros, so a worker can tell that a word was never written. No clause can say what a word
//! holds later, while others step; so a store answers with a value that no other call makes, and that tells which word
//! got which numbers. A seat at the hints for each worker would say no more, and would go through every call of
//! hx_ordering and hx_worker.

ghost use Rattle.std.specs.Prelude.{◌≡◌, ◌≢◌, ◌<◌, ◌≤◌, ◌%◌, ℕ, IfOk};
ghost use Rattle.hx_pn.specs.declared.proof_numbers.Numbers.{Numbers as PlainNumbers};
ghost use Rattle.hx_count.specs.Hints.{AreOpen, AreKept, kept_of, mark_of, word_of, numbers_of, left};
ghost use Rattle.hx_count.specs.HintWords.{AnyWords, no_store, stores};

use atomic_table::{Play, Seat, Table, TableRule};
use hx_board::Memory;
use hx_pn::{INF, Numbers, UNSEEN};
use std::alloc::Global;
use std::marker::Model;

/// How many different words have the same mark.
const A_MARK: u64 = 17_592_186_044_416;

/// How many different values there is room for in a word for each of the two numbers.
const A_NUMBER: u64 = 4_194_304;

/// The highest number that a hint has.
pub const HIGHEST_KEPT: u32 = 4_194_303;

/// What one store did: at which place which word was put. No value of it is made: it stands in contracts.
pub struct Stored {
    pub place: u64,
    pub word: u64,
}

/// The rule of a table of hints: there is none.
pub struct NoRule;

impl TableRule<(), Stored, ()> for NoRule {
    ghost holds = { AnyWords };

    ghost first = { no_store };
}

/// A store of a word.
pub struct Storing;

impl Play<(), Stored> for Storing {
    ghost then = { stores };
}

/// A table of hints. All that contracts see of it is which table it is, and so how many words it has.
#[derive(Drop)]
pub struct Hints {
    table: Table<(), Stored, (), NoRule, Global>,
    words: u32,
}

impl Model for Hints {
    ghost use Rattle.std.specs.Prelude.{◌≡◌, ◌<◌};
    ghost use Rattle.atomic_table.specs.Seated.{TableId};

    ghost Value = { TableId };

    ghost view = { λ h. h.table.shared.table_id };

    ghost invariant = { λ h. (h.table.shared.table_id.words ≡ h.words) × (0 < h.words) };
}

/// That numbers were left in a word of a table: only a store makes such a value. It has no bytes.
#[derive(Drop)]
pub struct Left {
    seat: Seat<(), Stored>,
}

impl Model for Left {
    ghost use Rattle.hx_count.specs.Hints.{LeftAt, left_by};

    ghost Value = { LeftAt };

    ghost view = { λ l. left_by l.seat.table_id l.seat.me.0 };
}

/// The numbers that a table keeps in place of these: each is brought into 1 to `HIGHEST_KEPT`. So they are never
/// `UNSEEN`, and a word that was written can be told from one that was not.
pub fn kept(numbers: Numbers) -> Numbers
    ensures value { result ≡ kept_of numbers }
    ensures kept { AreKept result }
    ensures open { AreOpen result }
    ensures seen { result ≢ UNSEEN }
    ensures same { AreKept numbers → result ≡ numbers }
{
    Numbers {
        phi: numbers.phi.clamp(1, HIGHEST_KEPT),
        delta: numbers.delta.clamp(1, HIGHEST_KEPT),
    }
}

/// The mark of the position that has this key, or of which a word tells: the upper twenty binary digits.
fn mark_of(key: u64) -> u64
    ensures { result ≡ mark_of key }
{
    key / A_MARK
}

/// The mark of the position that has this key, and both numbers of its hint, in one word.
fn word_of(key: u64, numbers: Numbers) -> u64
    requires { AreKept numbers }
    ensures { result ≡ word_of key numbers }
{
    mark_of(key) * A_MARK + u64::from(numbers.phi) * A_NUMBER + u64::from(numbers.delta)
}

/// The numbers that a word tells of the position that has this key: `UNSEEN` where nobody wrote the word, or for a
/// position with another mark.
fn numbers_of(key: u64, word: u64) -> Numbers
    ensures value { result ≡ numbers_of key word }
    ensures open { AreOpen result }
    ensures unwritten { word ≡ 0 → result ≡ UNSEEN }
    ensures back { (numbers : PlainNumbers) → AreKept numbers → word ≡ word_of key numbers
        → result ≡ numbers }
    ensures other { (other : ℕ) (numbers : PlainNumbers) → mark_of other ≢ mark_of key
        → AreKept numbers → word ≡ word_of other numbers → result ≡ UNSEEN }
{
    if word == 0 || mark_of(word) != mark_of(key) {
        return UNSEEN;
    }
    kept(Numbers {
        phi: (word / A_NUMBER % A_NUMBER) as u32,
        delta: (word % A_NUMBER) as u32,
    })
}

impl Hints {
    /// A table of so many words. Each has the numbers `UNSEEN` at first.
    pub fn with_words(alloc: Global, words: u32) -> Result<Hints, Memory>
        requires { 0 < words }
        ensures { IfOk result (λ hints. hints.words ≡ words) }
    {
        let Ok(zeros) = vec![in alloc; 0u64; words as usize] else {
            return Err(Memory);
        };
        let Ok((table, _first)) = Table::of_words(alloc, &zeros, &()) else {
            return Err(Memory);
        };
        Ok(Hints { table, words })
    }

    /// The numbers of the position that has this key. Both are at least 1 and below `INF`. They are `UNSEEN` where
    /// nobody wrote the word for a position with its mark, and else what `kept` gives for the numbers that were left so
    /// last.
    pub fn get(&self, key: u64) -> Numbers
        ensures phi { (1 ≤ result.phi) × (result.phi < INF) }
        ensures delta { (1 ≤ result.delta) × (result.delta < INF) }
    {
        let place = (key % u64::from(self.words)) as usize;
        numbers_of(key, self.table.shared.peek(place))
    }

    /// Leaves the numbers of the position that has this key, as `kept` gives them, with one store.
    pub fn set(&self, key: u64, numbers: Numbers) -> Left
        ensures { result ≡ left self.now key (kept_of numbers) }
    {
        let place = (key % u64::from(self.words)) as usize;
        let word = word_of(key, kept(numbers));
        let (_before, seat) = self.table.shared.swap_new_seat::<Storing>(place, word);
        Left { seat }
    }
}
