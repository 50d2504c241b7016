//! The size of the board of `survey`, which follows the name of the command: its rows and then its columns.

ghost use Rattle.hx_board.specs.Finds.{Finds};
ghost use Rattle.hx_cli.specs.Words.{words_of};
ghost use Rattle.hx_cli.specs.Sizes.{IsSizeSpelled, SizeAndOptions};

use crate::choices::settings_in;
use crate::numbers::number_of;
use hx_board::Size;
use hx_limits::Settings;

/// The most rows or columns of a board.
const MOST_LINES: u64 = 11;

/// The size that the words begin with, and the settings that the options after it choose.
pub(crate) fn size_and_settings_in(words: &[String]) -> Option<(Size, Settings)>
    ensures { Finds result (λ found. SizeAndOptions found.0 found.1 (words_of words.now)) }
{
    let (rows, rest) = words.split_first()?;
    let (cols, rest) = rest.split_first()?;
    let size = size_of(rows.as_bytes(), cols.as_bytes())?;
    let settings = settings_in(rest)?;
    Some((size, settings))
}

/// The size that has these numbers of rows and columns.
fn size_of(rows: &[u8], cols: &[u8]) -> Option<Size>
    ensures { Finds result (λ size. IsSizeSpelled size rows.now cols.now) }
{
    let rows = number_of(rows)?;
    let cols = number_of(cols)?;
    if rows > MOST_LINES || cols > MOST_LINES {
        return None;
    }
    Size::new(rows as u8, cols as u8)
}
