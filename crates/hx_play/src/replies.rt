//! The text of a game: what is written before the first line of the opponent's, and what answers each line.

ghost use Rattle.std.specs.Prelude.{◌≡◌, ◌+◌, ◌≤◌, ◌++◌, length, IfSome};
ghost use Rattle.hx_board.specs.Finds.{Finds};
ghost use Rattle.hx_play.specs.GameTexts.{AnswersLine, NamesEmpty, Opens, chain_text, illegal_line, move_line, play_line};
ghost use Rattle.hx_play.specs.Serving.{IsWaiting};

use crate::players::Player;
use hx_board::{Cell, Colour, Position};
use hx_lex::{TEXT_ROOM, Text, Words};

/// What is written at once, and whether the game has ended with it.
#[derive(Drop)]
pub(crate) struct Reply {
    pub text: Text,
    pub ended: bool,
}

/// What is written before the first line. The player makes its first move where it has one to make.
pub(crate) fn open(player: &mut Player) -> Reply
    ensures { Opens player.old result.text player.new result.ended }
{
    let mut text = Text::new();
    put_player(&mut text, player.winner());
    if let Some(cell) = player.first() {
        put_move(&mut text, cell);
    }
    ending(text, player.done())
}

/// What answers a line: the opponent's move is made and answered, or nothing happens.
pub(crate) fn answer_line(player: &mut Player, line: &[u8]) -> Reply
    requires { IsWaiting player.old }
    ensures { AnswersLine player.old line.now result.text player.new result.ended }
{
    let mut text = Text::new();
    match empty_cell(player.position(), line) {
        Some(cell) => {
            put_move(&mut text, player.answer(cell));
            ending(text, player.done())
        }
        None => {
            text.put(b"? illegal\n");
            Reply { text, ended: false }
        }
    }
}

/// The empty cell whose word a line is.
fn empty_cell(position: &Position, line: &[u8]) -> Option<Cell>
    ensures { Finds result (NamesEmpty position.now line.now) }
{
    let size = position.size();
    // The proof takes from here that a board has at most eleven rows.
    let _rows = size.rows();
    let mut words = Words::of(line);
    let cell = words.cell(size)?;
    words.end()?;
    if position.empties().has(cell) {
        Some(cell)
    } else {
        None
    }
}

/// Puts the first line.
fn put_player(text: &mut Text, winner: Colour)
    requires { length text.old + 11 ≤ TEXT_ROOM }
    ensures text { text.new ≡ text.old ++ play_line winner }
    ensures short { length text.new ≤ length text.old + 11 }
{
    text.put(b"play ");
    text.put_colour(winner);
    text.put(b"\n");
}

/// Puts the line of a move.
fn put_move(text: &mut Text, cell: Cell)
    requires { length text.old + 4 ≤ TEXT_ROOM }
    ensures text { text.new ≡ text.old ++ move_line cell }
    ensures short { length text.new ≤ length text.old + 4 }
{
    text.put_cell(cell);
    text.put(b"\n");
}

/// The reply with this text, behind which the game ends where the winner has a chain.
fn ending(text: Text, ended: bool) -> Reply
    requires { length text + 6 ≤ TEXT_ROOM }
    ensures text { result.text ≡ text ++ chain_text ended }
    ensures ended { result.ended ≡ ended }
{
    let mut text = text;
    if ended {
        text.put(b"chain\n");
    }
    Reply { text, ended }
}
