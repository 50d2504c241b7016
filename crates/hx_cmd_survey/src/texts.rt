//! The text of a table: the size of its board, a line of letters for each row, and how many openings each player wins.

ghost use Rattle.std.specs.Prelude.{◌≡◌, ◌<◌};
ghost use Rattle.hx_io.specs.Sinks.{WritesAll};
ghost use Rattle.hx_cmd_survey.specs.Texts.{letter_of, survey_line, letters, row_line, row_lines, counts_line, table_text};

use hx_answers::{write_counted, write_numbered};
use hx_board::{Colour, Size};
use hx_io::{Failed, Sink, write_all};
use hx_survey::Table;

/// Writes the text of a table.
pub(crate) fn write_table<K: Sink>(sink: &mut K, table: &Table) -> Result<(), Failed>
    ensures { WritesAll (K.writing sink.old) (K.writing sink.new) result
        (table_text table.now.size table.now.cells_of_black) }
{
    match write_heading(sink, table.size()) {
        Ok(()) => {}
        Err(Failed) => return Err(Failed),
    }
    match write_rows(sink, table) {
        Ok(()) => write_counts(sink, table),
        Err(Failed) => Err(Failed),
    }
}

/// Writes the line of the board's size.
fn write_heading<K: Sink>(sink: &mut K, size: Size) -> Result<(), Failed>
    ensures { WritesAll (K.writing sink.old) (K.writing sink.new) result (survey_line size) }
{
    match write_numbered(sink, b"survey ", u64::from(size.rows())) {
        Ok(()) => write_counted(sink, b" ", u64::from(size.cols())),
        Err(Failed) => Err(Failed),
    }
}

/// Writes the lines of all rows.
fn write_rows<K: Sink>(sink: &mut K, table: &Table) -> Result<(), Failed>
    ensures { WritesAll (K.writing sink.old) (K.writing sink.new) result
        (row_lines table.now.cells_of_black table.now.size.cols table.now.size.rows) }
{
    for row in 0..table.size().rows() {
        match write_row(sink, table, row) {
            Ok(()) => {}
            Err(Failed) => return Err(Failed),
        }
    }
    Ok(())
}

/// Writes the line of a row.
fn write_row<K: Sink>(sink: &mut K, table: &Table, row: u8) -> Result<(), Failed>
    requires { row < table.now.size.rows }
    ensures { WritesAll (K.writing sink.old) (K.writing sink.new) result
        (row_line table.now.cells_of_black table.now.size.cols row) }
{
    match write_letters(sink, table, row) {
        Ok(()) => write_all(sink, b"\n"),
        Err(Failed) => Err(Failed),
    }
}

/// Writes the letters of a row.
fn write_letters<K: Sink>(sink: &mut K, table: &Table, row: u8) -> Result<(), Failed>
    requires { row < table.now.size.rows }
    ensures { WritesAll (K.writing sink.old) (K.writing sink.new) result
        (letters table.now.cells_of_black row table.now.size.cols) }
{
    let size = table.size();
    for col in 0..size.cols() {
        let Some(cell) = size.cell(row, col) else {
            unreachable!()
        };
        match write_all(sink, &[letter_of(table.winner(cell))]) {
            Ok(()) => {}
            Err(Failed) => return Err(Failed),
        }
    }
    Ok(())
}

/// The letter of a player.
fn letter_of(player: Colour) -> u8
    ensures { result ≡ letter_of player }
{
    match player {
        Colour::Black => b'b',
        Colour::White => b'w',
    }
}

/// Writes after how many openings each player wins.
fn write_counts<K: Sink>(sink: &mut K, table: &Table) -> Result<(), Failed>
    ensures { WritesAll (K.writing sink.old) (K.writing sink.new) result
        (counts_line table.now.size table.now.cells_of_black) }
{
    let size = table.size();
    let cells = u64::from(size.rows()) * u64::from(size.cols());
    let black = u64::from(table.black());
    match write_numbered(sink, b"black ", black) {
        Ok(()) => write_counted(sink, b" white ", cells.saturating_sub(black)),
        Err(Failed) => Err(Failed),
    }
}
