//! The text of a reply, put together in place. The longest shows a board of eleven rows and columns behind a number of
//! ten digits, and has 358 bytes. Players, cells and numbers are spelled as in the texts of positions and trees.

ghost use Rattle.std.specs.Prelude.{◌≡◌, ◌+◌, ◌≤◌, ◌<◌, ◌++◌, [], length, replicate, codes};
ghost use Rattle.std.specs.Fmt.{decimal};
ghost use Rattle.hx_htp.specs.Replies.{stone_byte, columns_line, row_line, board_text, names_text, answer_text, refusal_text, reply_text};

use crate::answers::{Answer, Refusal};
use crate::names::NAMES;
use hx_board::{Colour, Position};
use hx_lex::{TEXT_ROOM, Text};
use itoa::Buffer;

/// The text of a reply: the mark, the line's number, and what is said.
pub(crate) fn spelled(number: &[u8], given: &Result<Answer, Refusal>) -> Text
    requires { length number.now ≤ 10 }
    ensures { result ≡ reply_text number.now given.now }
{
    let mut text = Text::new();
    match given {
        Ok(answer) => {
            put_front(&mut text, b"=", number);
            put_answer(&mut text, answer);
        }
        Err(refusal) => {
            put_front(&mut text, b"?", number);
            text.put(refusal_text(*refusal));
        }
    }
    text.put(b"\n\n");
    text
}

/// Puts a mark of one byte, a line's number and a space.
fn put_front(text: &mut Text, mark: &[u8], number: &[u8])
    requires first { text.old ≡ [] }
    requires one { length mark.now ≤ 1 }
    requires short { length number.now ≤ 10 }
    ensures text { text.new ≡ mark.now ++ number.now ++ codes " " }
    ensures short { length text.new ≤ 12 }
{
    text.put(mark);
    text.put(number);
    text.put(b" ");
}

/// Puts an answer, behind which two bytes more have room.
fn put_answer(text: &mut Text, answer: &Answer)
    requires { length text.old ≤ 12 }
    ensures text { text.new ≡ text.old ++ answer_text answer.now }
    ensures short { length text.new + 2 ≤ TEXT_ROOM }
{
    match answer {
        Answer::Empty => {}
        Answer::Protocol => text.put(b"2"),
        Answer::Program => text.put(b"hx"),
        Answer::Release => text.put(b"1"),
        Answer::Known(known) => text.put(if *known { b"true" } else { b"false" }),
        Answer::Names => put_names(text),
        Answer::Cell(cell) => text.put_cell(*cell),
        Answer::Shown(position) => put_board(text, position),
        Answer::Winner(winner) => text.put_colour(*winner),
        Answer::UnknownBudget(n) => {
            text.put(b"unknown budget ");
            put_long_number(text, *n);
        }
        Answer::UnknownProofs(n) => {
            text.put(b"unknown proofs ");
            text.put_number(*n);
        }
    }
}

/// Puts a number of 64 bits.
fn put_long_number(text: &mut Text, n: u64)
    requires { length text.old + 20 ≤ TEXT_ROOM }
    ensures text { text.new ≡ text.old ++ decimal n }
    ensures short { length text.new ≤ length text.old + 20 }
{
    let mut buffer = Buffer::new();
    text.put(buffer.format(n).as_bytes());
}

/// Puts all names, one a line.
fn put_names(text: &mut Text)
    requires { length text.old ≤ 12 }
    ensures text { text.new ≡ text.old ++ names_text }
    ensures short { length text.new + 2 ≤ TEXT_ROOM }
{
    text.put(NAMES[0].word());
    for name in &NAMES[1..] {
        text.put(b"\n");
        text.put(name.word());
    }
}

/// Puts the lines of a board.
fn put_board(text: &mut Text, position: &Position)
    requires { length text.old ≤ 12 }
    ensures text { text.new ≡ text.old ++ board_text position.now }
    ensures short { length text.new + 2 ≤ TEXT_ROOM }
{
    let size = position.size();
    put_columns(text, size.cols());
    for row in 0..size.rows() {
        text.put(b"\n");
        put_row(text, position, row);
    }
}

/// Puts the line of the column letters.
fn put_columns(text: &mut Text, cols: u8)
    requires few { cols ≤ 11 }
    requires room { length text.old ≤ 12 }
    ensures text { text.new ≡ text.old ++ columns_line cols }
    ensures short { length text.new ≤ length text.old + 23 }
{
    text.put(b" ");
    for col in 0..cols {
        text.put(&[b' ', b'a' + col]);
    }
}

/// Puts the line of a row.
fn put_row(text: &mut Text, position: &Position, row: u8)
    requires few { row < position.now.size.rows }
    requires room { length text.old + 42 ≤ TEXT_ROOM }
    ensures text { text.new ≡ text.old ++ row_line position.now row }
    ensures short { length text.new ≤ length text.old + 42 }
{
    let size = position.size();
    // The proof takes from here how many rows there can be.
    let _rows = size.rows();
    put_spaces(text, row);
    text.put_number(u32::from(row + 1));
    for col in 0..size.cols() {
        let stone = match size.cell(row, col) {
            Some(cell) => position.at(cell),
            None => unreachable!(),
        };
        text.put(&[b' ', stone_byte(stone)]);
    }
}

/// So many spaces.
fn put_spaces(text: &mut Text, count: u8)
    requires { length text.old + count ≤ TEXT_ROOM }
    ensures text { text.new ≡ text.old ++ replicate count 32 }
    ensures short { length text.new ≤ length text.old + count }
{
    for _ in 0..count {
        text.put(b" ");
    }
}

/// A dot for an empty cell, and else a letter for the stone.
fn stone_byte(stone: Option<Colour>) -> u8
    ensures { result ≡ stone_byte stone }
{
    match stone {
        None => b'.',
        Some(Colour::Black) => b'b',
        Some(Colour::White) => b'w',
    }
}

/// Why there is no answer, in words.
fn refusal_text(refusal: Refusal) -> &'static [u8]
    ensures text { result.now ≡ refusal_text refusal }
    ensures short { length result.now ≤ 17 }
{
    match refusal {
        Refusal::UnknownCommand => b"unknown command",
        Refusal::SyntaxError => b"syntax error",
        Refusal::UnacceptableSize => b"unacceptable size",
        Refusal::IllegalMove => b"illegal move",
        Refusal::CannotUndo => b"cannot undo",
        Refusal::NoEmptyCell => b"no empty cell",
        Refusal::OutOfMemory => b"out of memory",
    }
}
