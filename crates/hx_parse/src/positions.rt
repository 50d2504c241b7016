//! The reader of a position's text.

ghost use Rattle.std.specs.Prelude.{◌≡◌, IfOk, IfErr, Ok};
ghost use Rattle.hx_board.specs.declared.colours.Colour.{Colour as Mover};
ghost use Rattle.hx_board.specs.Positions.{Board, IsBoard};
ghost use Rattle.hx_text.specs.Grammars.{IsFaultyLine};
ghost use Rattle.hx_text.specs.PositionTexts.{ArePositionLines, position_text};

use crate::boards::read_board;
use crate::lines::read_mover;
use crate::text_lines::{TextFault, TextLines};
use hx_board::{Colour, Position};

/// Reads the text of a position and of the player to move, which takes no memory. A line that is missing or is not
/// ended by LF is wrong at its own number, and whatever follows the fifth line is wrong as the sixth.
pub fn read_position(bytes: &[u8]) -> Result<(Position, Colour), TextFault>
    // What is read is spelled so.
    ensures read { IfOk result (λ found.
        IsBoard found.0 × (bytes.now ≡ position_text found.0 found.1)) }
    // What is spelled so is read.
    ensures all { (board : Board) (to_move : Mover) → IsBoard board
        → bytes.now ≡ position_text board to_move → result ≡ Ok (board, to_move) }
    ensures fault { IfErr result (λ fault. IsFaultyLine ArePositionLines bytes.now fault.line) }
{
    read_lines(bytes)
}

/// Reads one line after the other.
fn read_lines(bytes: &[u8]) -> Result<(Position, Colour), TextFault>
    ensures read { IfOk result (λ found.
        IsBoard found.0 × (bytes.now ≡ position_text found.0 found.1)) }
    ensures fault { IfErr result (λ fault. IsFaultyLine ArePositionLines bytes.now fault.line) }
{
    let mut lines = TextLines::of(bytes);
    let position = read_board(&mut lines, b"hexpos 1")?;
    let to_move = lines.next(read_mover)?;
    lines.end()?;
    Ok((position, to_move))
}
