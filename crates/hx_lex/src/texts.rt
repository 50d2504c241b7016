//! The text that is spelled in place. It keeps what was put into it until that is written at once, and takes no memory.
//! Its words are those of the formats: colours, cells, numbers and masks.

ghost use Rattle.std.specs.Prelude.{◌≡◌, ◌+◌, ◌≤◌, ◌++◌, ◌<◌, [], length, ◌↔◌, IsTrue};
ghost use Rattle.std.specs.Fmt.{decimal};
ghost use Rattle.hx_lex.specs.Words.{hex_digit, mask_word, colour_word, cell_word};

use crate::values;
use arrayvec::ArrayVec;
use hx_board::{Cell, Colour, Mask};
use itoa::Buffer;
use std::marker::Model;

/// The most bytes of a text. Each new text is filled with as many zeros, so more of them make short texts slower.
pub const TEXT_ROOM: usize = 512;

/// How many digits a mask has.
const MASK_DIGITS: u8 = 32;

/// A text of at most `TEXT_ROOM` bytes, seen as its bytes. What is put in goes to the end, and has to have room.
#[derive(Drop)]
pub struct Text {
    bytes: ArrayVec<u8, TEXT_ROOM>,
}

impl Model for Text {
    ghost use Rattle.std.specs.Prelude.{List, ℕ};

    ghost Value = { List ℕ };

    ghost view = { λ t. t.bytes.items };
}

impl Text {
    /// The empty text.
    pub fn new() -> Text
        ensures { result ≡ [] }
    {
        Text {
            bytes: ArrayVec::new(),
        }
    }

    /// Its bytes.
    pub fn bytes(&self) -> &[u8]
        ensures { result.now ≡ self.now }
    {
        self.bytes.as_slice()
    }

    /// Whether so many bytes more have room.
    pub fn has_room(&self, bytes: usize) -> bool
        ensures { IsTrue result ↔ (length self.now + bytes ≤ TEXT_ROOM) }
    {
        bytes <= self.bytes.remaining_capacity()
    }

    /// Puts these bytes at the end.
    pub fn put(&mut self, bytes: &[u8])
        requires { length self.old + length bytes.now ≤ TEXT_ROOM }
        ensures { self.new ≡ self.old ++ bytes.now }
    {
        self.bytes.try_extend_from_slice(bytes).unwrap();
    }

    /// Puts the word of a colour.
    pub fn put_colour(&mut self, colour: Colour)
        requires { length self.old + 5 ≤ TEXT_ROOM }
        ensures text { self.new ≡ self.old ++ colour_word colour }
        ensures short { length self.new ≤ length self.old + 5 }
    {
        self.put(values::colour_word(colour));
    }

    /// Puts the digits of a mask, the most significant first.
    pub fn put_mask(&mut self, mask: Mask)
        requires { length self.old + 32 ≤ TEXT_ROOM }
        ensures text { self.new ≡ self.old ++ mask_word mask }
        ensures long { length self.new ≡ length self.old + 32 }
    {
        let bits = mask.bits();
        for place in (0..MASK_DIGITS).rev() {
            let digit = (bits >> (4 * place)) % 16;
            self.put(&[hex_digit_of(digit as u8)]);
        }
    }

    /// Puts the word of a cell: the letter of its column, and its row counted from 1.
    pub fn put_cell(&mut self, cell: Cell)
        requires { length self.old + 3 ≤ TEXT_ROOM }
        ensures text { self.new ≡ self.old ++ cell_word cell }
        ensures short { length self.new ≤ length self.old + 3 }
    {
        self.put(&[b'a' + cell.col()]);
        self.put_small(cell.row() + 1);
    }

    /// Puts a number in decimal digits.
    pub fn put_number(&mut self, n: u32)
        requires { length self.old + 10 ≤ TEXT_ROOM }
        ensures text { self.new ≡ self.old ++ decimal n }
        ensures short { length self.new ≤ length self.old + 10 }
    {
        let mut buffer = Buffer::new();
        self.put(buffer.format(n).as_bytes());
    }

    /// Puts a number of at most two digits.
    pub fn put_small(&mut self, n: u8)
        requires room { length self.old + 2 ≤ TEXT_ROOM }
        requires small { n < 100 }
        ensures text { self.new ≡ self.old ++ decimal n }
        ensures short { length self.new ≤ length self.old + 2 }
    {
        let mut buffer = Buffer::new();
        self.put(buffer.format(n).as_bytes());
    }
}

/// The digit of a mask for a number below 16.
fn hex_digit_of(n: u8) -> u8
    requires { n ≤ 15 }
    ensures { result ≡ hex_digit n }
{
    if n < 10 { b'0' + n } else { b'a' + (n - 10) }
}
