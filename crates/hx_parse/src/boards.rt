//! The lines of a board behind a title, with which the text of a position begins, and that of a template.

ghost use Rattle.std.specs.Prelude.{◌≡◌, IfOk, IfErr};
ghost use Rattle.hx_board.specs.declared.colours.Colour.TheVariants.{Black, White};
ghost use Rattle.hx_board.specs.Cells.{IsExtent};
ghost use Rattle.hx_board.specs.Finds.{Finds};
ghost use Rattle.hx_board.specs.Positions.{IsBoard, IsPosition};
ghost use Rattle.hx_lex.specs.Marks.{Lacks};
ghost use Rattle.hx_lex.specs.Words.{Reads};
ghost use Rattle.hx_text.specs.PositionTexts.{stones_line};
ghost use Rattle.hx_parse.specs.Boards.{titled_board, IsBoardFault};
ghost use Rattle.hx_parse.specs.TextLines.{StandsBehind};

use crate::lines::{read_size, read_stones};
use crate::text_lines::{TextFault, TextLines};
use hx_board::{Colour, Mask, Position, Size};

/// Reads the first line of a text, which is to be its title, and then the three lines of a board.
pub fn read_board(lines: &mut TextLines<'_>, title: &[u8]) -> Result<Position, TextFault>
    requires first { lines.old.number ≡ 1 }
    requires line { Lacks 10 title.now }
    ensures read { IfOk result (λ position. IsBoard position
        × StandsBehind lines.old.rest (titled_board title.now position) lines.new) }
    ensures fault { IfErr result (λ fault.
        IsBoardFault title.now lines.old.rest fault.line) }
{
    lines.next(|line| read_title(title, line))?;
    let size = lines.next(read_size)?;
    let black = lines.next(|line| black_stones(size, line))?;
    lines.next(|line| with_white_stones(size, black, line))
}

/// The title, as a line.
fn read_title(title: &[u8], line: &[u8]) -> Option<()>
    ensures { Reads (λ _. title.now) (λ _. Unit {0}) line.now result }
{
    if line == title { Some(()) } else { None }
}

/// The line `black MASK`: Black's stones on a board of this size. None where the line is not so, or a stone is off the
/// board.
pub fn black_stones(size: Size, line: &[u8]) -> Option<Mask>
    requires { IsExtent size.rows size.cols }
    ensures { Reads (stones_line Black) (λ black. IsPosition size black 0) line.now result }
{
    let black = read_stones(Colour::Black, line)?;
    let _ = Position::from_masks(size, black, Mask::empty())?;
    Some(black)
}

/// The line `white MASK`: the position that White's stones and these black ones make on a board of this size. None
/// where the line is not so, or the stones make none: one is off the board, or two share a cell.
pub fn with_white_stones(size: Size, black: Mask, line: &[u8]) -> Option<Position>
    requires { IsExtent size.rows size.cols }
    ensures { Finds result (λ position. IsBoard position × (position.size ≡ size)
        × (position.black ≡ black) × (line.now ≡ stones_line White position.white)) }
{
    let white = read_stones(Colour::White, line)?;
    Position::from_masks(size, black, white)
}
