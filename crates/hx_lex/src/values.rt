//! The values that single words stand for: numbers, masks, colours and cells. Each value has one word, so what is
//! spelled in another way, as a number with a leading zero, is none.

ghost use Rattle.std.specs.Prelude.{◌≡◌, ◌+◌, ◌<◌, ◌≤◌, ◌^◌, ◌↔◌, IsTrue, SomeIff, ℕ, length};
ghost use Rattle.std.specs.Fmt.{decimal};
ghost use Rattle.std.specs.Str.Parse.{AllDigits, digits_value};
ghost use Rattle.hx_board.specs.Cells.{OnBoard, IsExtent, row_of, col_of};
ghost use Rattle.hx_board.specs.Finds.{Finds};
ghost use Rattle.hx_board.specs.Graph.{IsVertex};
ghost use Rattle.hx_lex.specs.Words.{vertex_word, Reads, IsNumber, IsSet, hex, hex_digit, IsCanonical, mask_word, colour_word, cell_word};

use hx_board::{Cell, Colour, Mask, Size, Vertex};

/// A number below 2 to the power of 32, in decimal digits without a leading zero.
pub fn read_number(word: &[u8]) -> Option<u32>
    ensures { Reads decimal IsNumber word.now result }
{
    if !is_canonical(word) {
        return None;
    }
    let value = read_digits(word)?;
    u32::try_from(value).ok()
}

/// Whether the word is one to ten bytes, and begins with a zero only where it is one byte.
fn is_canonical(word: &[u8]) -> bool
    ensures { IsTrue result ↔ IsCanonical word.now }
{
    match word {
        [] => false,
        [_] => true,
        [first, ..] => *first != b'0' && word.len() <= 10,
    }
}

/// The number that decimal digits stand for. Leading zeros count nothing, and no digit at all stands for 0. Nineteen
/// digits are always less than 64 bits hold.
pub fn read_digits(word: &[u8]) -> Option<u64>
    requires { length word.now ≤ 19 }
    ensures { Finds result (λ value. AllDigits 10 word.now × (value ≡ digits_value 10 word.now)) }
{
    let mut value: u64 = 0;
    for byte in word {
        if !byte.is_ascii_digit() {
            return None;
        }
        value = 10 * value + u64::from(*byte - b'0');
    }
    Some(value)
}

/// The size of so many rows and columns. None where there is no board of that size.
pub fn size_of(rows: u32, cols: u32) -> Option<Size>
    ensures { SomeIff result (IsExtent rows cols) (record { rows = rows; cols = cols }) }
{
    let rows = u8::try_from(rows).ok()?;
    let cols = u8::try_from(cols).ok()?;
    Size::new(rows, cols)
}

/// How many digits the word of a set of cells has.
pub(crate) const MASK: usize = 32;

/// A set of cells: exactly so many digits, the most significant first.
pub(crate) fn mask(word: &[u8]) -> Option<Mask>
    ensures { Reads mask_word IsSet word.now result }
{
    if word.len() != MASK {
        return None;
    }
    let (high, low) = word.split_at(16);
    let high = half_mask(high)?;
    let low = half_mask(low)?;
    Some(Mask::of(u128::from(high) * HALF + u128::from(low)))
}

/// What a digit in the first half of a mask counts more than the one in the same place of the second.
const HALF: u128 = 18_446_744_073_709_551_616;

/// The number of half a mask. Its digits differ from mask to mask, so nothing here branches on them. They are taken as
/// an array, whose length the compiler knows: so it goes over them without a loop, which takes less than half the time.
fn half_mask(digits: &[u8]) -> Option<u64>
    requires { length digits.now ≡ 16 }
    ensures { Reads (hex 16) (λ n. n < 2 ^ 64) digits.now result }
{
    let Ok(array) = <[u8; 16]>::try_from(digits) else {
        return None;
    };
    let mut bits: u64 = 0;
    let mut known = true;
    for byte in &array {
        let digit = hex_value(*byte);
        known &= digit < 16;
        bits = 16 * bits + u64::from(digit % 16);
    }
    if known { Some(bits) } else { None }
}

/// The value of a digit of a mask, whose letters are small ones; 16 for a byte that is no digit.
fn hex_value(byte: u8) -> u8
    ensures digit { result < 16 → byte ≡ hex_digit result }
    ensures each { (digit : ℕ) → digit < 16 → byte ≡ hex_digit digit → result ≡ digit }
{
    let digit = byte.wrapping_sub(b'0');
    let letter = byte.wrapping_sub(b'a');
    if digit < 10 {
        digit
    } else if letter < 6 {
        letter + 10
    } else {
        16
    }
}

/// The word of a player.
pub fn colour_word(colour: Colour) -> &'static [u8]
    ensures { result.now ≡ colour_word colour }
{
    match colour {
        Colour::Black => b"black",
        Colour::White => b"white",
    }
}

/// A vertex of a player's graph on a board of this size: a side, or a cell.
pub(crate) fn vertex(size: Size, word: &[u8]) -> Option<Vertex>
    ensures { Reads vertex_word (IsVertex size) word.now result }
{
    match word {
        b"first" => Some(Vertex::First),
        b"last" => Some(Vertex::Last),
        _ => match cell(size, word) {
            Some(cell) => Some(Vertex::Of(cell)),
            None => None,
        },
    }
}

/// A cell of a board of this size: the letter of its column and the number of its row.
pub(crate) fn cell(size: Size, word: &[u8]) -> Option<Cell>
    ensures { Reads cell_word (OnBoard size) word.now result }
{
    // The proof takes from here that a board has at most eleven rows.
    let _rows = size.rows();
    let (letter, digits) = word.split_first()?;
    let row = read_number(digits)?;
    cell_at(size, *letter, row)
}

/// The cell in a column by its letter, and in a row counted from 1.
fn cell_at(size: Size, letter: u8, row: u32) -> Option<Cell>
    ensures { Finds result (λ cell. OnBoard size cell × (letter ≡ 97 + col_of cell)
        × (row ≡ row_of cell + 1)) }
{
    // The proof takes from here that a board has at most eleven rows and columns.
    let _rows = size.rows();
    let col = letter.checked_sub(b'a')?;
    let above = row.checked_sub(1)?;
    let row = u8::try_from(above).ok()?;
    size.cell(row, col)
}
