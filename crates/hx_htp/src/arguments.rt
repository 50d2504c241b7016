//! What a word is as an argument: a player, a number or a vertex.

ghost use Rattle.std.specs.Prelude.{◌≡◌, ◌<◌, IfSome};
ghost use Rattle.std.specs.List.{list_all};
ghost use Rattle.std.specs.Char.{is_ascii_digit};
ghost use Rattle.hx_board.specs.Cells.{index_of};
ghost use Rattle.hx_htp.specs.Arguments.{colour_of, number_of, column_of, row_of_number, row_of_word, vertex_of};

use hx_board::{Cell, Colour, Size};
use hx_lex::read_digits;

/// The player that a word names, in letters of either case.
pub(crate) fn colour(word: &[u8]) -> Option<Colour>
    ensures { result ≡ colour_of word.now }
{
    if word.eq_ignore_ascii_case(b"b") || word.eq_ignore_ascii_case(b"black") {
        Some(Colour::Black)
    } else if word.eq_ignore_ascii_case(b"w") || word.eq_ignore_ascii_case(b"white") {
        Some(Colour::White)
    } else {
        None
    }
}

/// The number of a word of one to nine decimal digits. Leading zeros count too.
pub(crate) fn number(word: &[u8]) -> Option<u32>
    ensures { result ≡ number_of word.now }
{
    if word.is_empty() || word.len() > 9 {
        return None;
    }
    let value = read_digits(word)?;
    u32::try_from(value).ok()
}

/// Whether each byte is a decimal digit.
pub(crate) fn is_digits(word: &[u8]) -> bool
    ensures { result ≡ list_all is_ascii_digit word.now }
{
    word.iter().all(|byte| byte.is_ascii_digit())
}

/// The cell that a word names, on a board of eleven rows and columns.
pub(crate) fn vertex(word: &[u8]) -> Option<Cell>
    ensures { result ≡ vertex_of word.now }
{
    let (letter, digits) = word.split_first()?;
    let col = column(*letter)?;
    let row = row(digits)?;
    Some(cell_at(row, col))
}

/// The column of a letter from `a` to `k`, in either case.
fn column(letter: u8) -> Option<u8>
    ensures value { result ≡ column_of letter }
    ensures small { IfSome result (λ col. col < 11) }
{
    let small = letter.to_ascii_lowercase();
    if b'a' <= small && small < b'l' {
        Some(small - b'a')
    } else {
        None
    }
}

/// The row of a word that is a number from 1 to 11 without a leading zero.
fn row(word: &[u8]) -> Option<u8>
    ensures value { result ≡ row_of_word word.now }
    ensures small { IfSome result (λ row. row < 11) }
{
    if let [b'0', ..] = word {
        return None;
    }
    row_of_number(number(word)?)
}

/// The row of a number from 1 to 11.
fn row_of_number(number: u32) -> Option<u8>
    ensures value { result ≡ row_of_number number }
    ensures small { IfSome result (λ row. row < 11) }
{
    if 1 <= number && number <= 11 {
        Some((number - 1) as u8)
    } else {
        None
    }
}

/// The cell in a row and a column of a board of eleven rows and columns.
fn cell_at(row: u8, col: u8) -> Cell
    requires row { row < 11 }
    requires col { col < 11 }
    ensures { result ≡ index_of row col }
{
    match widest().cell(row, col) {
        Some(cell) => cell,
        None => unreachable!(),
    }
}

/// Eleven rows and columns.
pub(crate) fn widest() -> Size
    ensures { result ≡ record { rows = 11; cols = 11 } }
{
    match Size::new(11, 11) {
        Some(size) => size,
        None => unreachable!(),
    }
}
