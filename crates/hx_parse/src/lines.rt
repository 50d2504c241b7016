//! The lines of the texts outside of nodes, with a reader for each kind. A line that is not of the kind is answered
//! with None.

ghost use Rattle.hx_board.specs.Cells.{IsExtent};
ghost use Rattle.hx_lex.specs.Words.{Reads, IsNumber, IsSet};
ghost use Rattle.hx_text.specs.PositionTexts.{size_line, stones_line, move_line};
ghost use Rattle.hx_text.specs.TreeTexts.{title_line, end_line};

use hx_board::{Colour, Mask, Size};
use hx_lex::{Words, colour_word, keyed_colour, keyed_mask, size_of};
use hx_text::Version;

/// What the last line of a tree's text says.
#[derive(Clone, Copy)]
pub(crate) struct End {
    pub count: u32,
    pub winner: Colour,
}

/// The first line of a tree's text, which tells its version.
#[tactic(auto, unfolding(hx_lex::specs::Words::spaced))]
pub(crate) fn read_title(line: &[u8]) -> Option<Version>
    ensures { Reads title_line (λ _. Unit {0}) line.now result }
{
    match line {
        b"hextree 1" => Some(Version::One),
        b"hextree 2" => Some(Version::Two),
        _ => None,
    }
}

/// The line `size ROWS COLUMNS`, with numbers from 1 to 11, as each text with a board has it. None where the line is
/// not so.
pub fn read_size(line: &[u8]) -> Option<Size>
    ensures { Reads size_line (λ s. IsExtent s.rows s.cols) line.now result }
{
    let mut words = Words::of(line);
    words.keyword(b"size")?;
    let rows = words.number()?;
    let cols = words.number()?;
    words.end()?;
    size_of(rows, cols)
}

/// The line of a player's stones, `black MASK` or `white MASK`.
pub(crate) fn read_stones(player: Colour, line: &[u8]) -> Option<Mask>
    ensures { Reads (stones_line player) IsSet line.now result }
{
    keyed_mask(colour_word(player), line)
}

/// The line `move COLOUR`.
pub(crate) fn read_mover(line: &[u8]) -> Option<Colour>
    ensures { Reads move_line (λ _. Unit {0}) line.now result }
{
    keyed_colour(b"move", line)
}

/// The line `end COUNT WINNER`.
pub(crate) fn read_end(line: &[u8]) -> Option<End>
    ensures { Reads (λ e. end_line e.count e.winner) (λ e. IsNumber e.count) line.now result }
{
    let mut words = Words::of(line);
    words.keyword(b"end")?;
    let count = words.number()?;
    let winner = words.colour()?;
    words.end()?;
    Some(End { count, winner })
}
