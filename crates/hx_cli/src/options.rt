//! Options, taken off the front of the words. An option is a name and its value, in two words, or in one with an equals
//! sign between. So a word after a name is a value, whatever it looks like.

ghost use Rattle.std.specs.Prelude.{MatchOption};
ghost use Rattle.hx_board.specs.Finds.{Finds};
ghost use Rattle.hx_cli.specs.Words.{words_of};
ghost use Rattle.hx_cli.specs.Choices.{Spelled, IsJoined, HasNoOption};

use crate::numbers::number_of;
use crate::settings::Setting;
use hx_lex::cut;

/// What an option chooses: a number for a setting.
#[derive(Clone, Copy, Debug, PartialEq, Eq)]
pub struct Choice {
    pub setting: Setting,
    pub number: u64,
}

/// The option that the words begin with, and the words after it.
pub(crate) fn first_option(words: &[String]) -> Option<(Choice, &[String])>
    ensures { MatchOption result
        (HasNoOption (words_of words.now))
        (λ found. Spelled found.0 (words_of words.now) (words_of found.1.now)) }
{
    let (word, rest) = words.split_first()?;
    match Setting::named(word.as_bytes()) {
        Some(setting) => {
            let (value, rest) = rest.split_first()?;
            let number = number_of(value.as_bytes())?;
            Some((Choice { setting, number }, rest))
        }
        None => {
            let choice = joined(word.as_bytes())?;
            Some((choice, rest))
        }
    }
}

/// The option that is this one word.
fn joined(word: &[u8]) -> Option<Choice>
    ensures { Finds result (λ choice. IsJoined choice word.now) }
{
    let (name, value) = cut(word, b'=')?;
    let setting = Setting::named(name)?;
    let number = number_of(value)?;
    Some(Choice { setting, number })
}
