//! Reading a line: its number, and what it asks for.

ghost use Rattle.std.specs.Prelude.{◌≡◌, [], MatchOption};
ghost use Rattle.hx_htp.specs.Words.{is_number, words_in};
ghost use Rattle.hx_htp.specs.Commands.{asked};
ghost use Rattle.hx_htp.specs.Runs.{is_quit};
ghost use Rattle.hx_htp.specs.Parts.{IsCommand};

use crate::answers::Refusal;
use crate::arguments::is_digits;
use crate::requests::{Request, asked};
use crate::words::Words;

/// What a line with words says: its number, or no byte where it has none, and what it asks for or why that is nothing.
#[derive(Drop)]
pub(crate) struct Command<'a> {
    pub number: &'a [u8],
    pub asked: Result<Request, Refusal>,
}

/// Reads what of a line counts. None exactly where there is no word.
pub(crate) fn read(shown: &[u8]) -> Option<Command<'_>>
    ensures { MatchOption result (words_in shown.now ≡ [])
        (λ command. IsCommand (words_in shown.now) command.number.now command.asked) }
{
    let mut words = Words::of(shown);
    let word = words.next()?;
    if is_number(word) {
        Some(Command {
            number: word,
            asked: asked(&mut words),
        })
    } else {
        Some(unnumbered(shown))
    }
}

/// Reads what of a line without a number counts.
fn unnumbered(shown: &[u8]) -> Command<'_>
    ensures number { result.number.now ≡ [] }
    ensures asked { result.asked ≡ asked (words_in shown.now) }
{
    let mut words = Words::of(shown);
    Command {
        number: &shown[..0],
        asked: asked(&mut words),
    }
}

/// Whether a word is one to ten decimal digits.
fn is_number(word: &[u8]) -> bool
    ensures { result ≡ is_number word.now }
{
    !word.is_empty() && word.len() <= 10 && is_digits(word)
}

/// Whether it is asked to quit.
pub(crate) fn is_quit(asked: Result<Request, Refusal>) -> bool
    ensures { result ≡ is_quit asked }
{
    match asked {
        Ok(Request::Quit) => true,
        _ => false,
    }
}
