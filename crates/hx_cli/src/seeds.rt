//! The seed of `demo`, which follows the name of the command.

ghost use Rattle.hx_board.specs.Finds.{Finds};
ghost use Rattle.hx_cli.specs.Words.{words_of};
ghost use Rattle.hx_cli.specs.Seeds.{IsSeed, SeedAndOptions};

use crate::choices::settings_in;
use hx_limits::Settings;

/// The most digits of a seed, which are those of the largest number of 64 binary digits. Leading zeros count too.
const MOST_DIGITS: usize = 20;

/// The seed that the words begin with, and the settings that the options after it choose.
pub(crate) fn seed_and_settings_in(words: &[String]) -> Option<(u64, Settings)>
    ensures { Finds result (λ found. SeedAndOptions found.0 found.1 (words_of words.now)) }
{
    let (word, rest) = words.split_first()?;
    let seed = seed_of(word.as_str())?;
    let settings = settings_in(rest)?;
    Some((seed, settings))
}

/// The seed that a word is: decimal digits of a number below 2^64, and nothing else.
fn seed_of(word: &str) -> Option<u64>
    ensures { Finds result (IsSeed word.now) }
{
    // `parse` takes a sign too.
    if word.len() > MOST_DIGITS || word.starts_with('+') {
        return None;
    }
    word.parse().ok()
}
