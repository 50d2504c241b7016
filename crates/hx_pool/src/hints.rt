//! How many words of hints the workers have.
//!
//! A visit of a position spends one unit and leaves its numbers in one word. Where it leaves them in the word of
//! another position those are lost. So there are eight words for each unit, up to a number of words that depends on the
//! budget, and 16 at the least. More words than positions that can come are of no use. Where one of the two is few the
//! table is small, too, and takes no longer to make than the search takes. It is made of a list of zeros, so for a
//! moment it takes twice its memory. docs/performance.md tells how long that takes, and
//! docs/tried.md why there are eight words.

ghost use Rattle.std.specs.Prelude.{◌≡◌, ◌<◌, ◌≤◌, ◌/◌, ◌^◌, ℕ, max};
ghost use Rattle.hx_pool.specs.HintWords.{words_of_use, most_words_of};

/// How many words there are for each unit.
const WORDS_OF_UNIT: u64 = 8;

/// The fewest words.
const FEWEST_WORDS: u32 = 16;

/// The most words for a budget that is not large. They take 8 megabytes.
const MANY_WORDS: u32 = 1_048_576;

/// The most words for a large budget. They take 32 megabytes.
const MOST_WORDS: u32 = 4_194_304;

/// A budget of more units is large.
const MANY_UNITS: u64 = 1_048_576;

/// The most words for a budget.
fn most_words(budget: u64) -> u32
    ensures value { result ≡ most_words_of budget }
    ensures power { (digits : ℕ) × (result ≡ 2 ^ digits) }
{
    if budget <= MANY_UNITS {
        MANY_WORDS
    } else {
        MOST_WORDS
    }
}

/// The words of hints for a budget, on a position with so many empty cells: the next power of two, within the bounds.
pub fn hint_words(budget: u64, empties: u32) -> u32
    ensures some { FEWEST_WORDS ≤ result }
    ensures few { result ≤ most_words_of budget }
    ensures enough { words_of_use budget empties ≤ result }
    ensures spare { result / 2 < max FEWEST_WORDS (words_of_use budget empties) }
    ensures power { (digits : ℕ) × (result ≡ 2 ^ digits) }
{
    // Each empty cell stays empty or gets a stone of either player, and either player is to move.
    let positions = 3u64.saturating_pow(empties).saturating_mul(2);
    let most = most_words(budget);
    let uses = budget
        .saturating_mul(WORDS_OF_UNIT)
        .min(positions)
        .min(u64::from(most)) as u32;
    let words = uses.max(FEWEST_WORDS).next_power_of_two();
    if words < most { words } else { most }
}
