//! How `solve` is asked for: by options, with the flag `--plain-tree` once among them or without it.

ghost use Rattle.hx_board.specs.Finds.{Finds};
ghost use Rattle.hx_cli.specs.Words.{words_of};
ghost use Rattle.hx_cli.specs.Choices.{AreSearchChoices, AreAloneAfter};

use crate::choices::{Chosen, settings_after, take_options};
use hx_limits::Settings;

/// The flag for a tree of plain nodes.
const PLAIN_TREE: &str = "--plain-tree";

/// The settings of a search that has these words for its options, and whether the flag is among them.
pub(crate) fn search_in(words: &[String]) -> Option<(Settings, bool)>
    ensures { Finds result (λ found. AreSearchChoices found.1 found.0 (words_of words.now)) }
{
    let (before, rest) = take_options(Chosen::nothing(), words)?;
    let Some((word, behind)) = rest.split_first() else {
        return Some((before.settings(), false));
    };
    if word.as_str() != PLAIN_TREE {
        return None;
    }
    let settings = alone_after(before, behind)?;
    Some((settings, true))
}

/// The settings of a search by one worker, where these words come after the flag.
fn alone_after(before: Chosen, words: &[String]) -> Option<Settings>
    ensures { Finds result (AreAloneAfter before (words_of words.now)) }
{
    let settings = settings_after(before, words)?;
    if settings.workers == 1 {
        Some(settings)
    } else {
        None
    }
}
