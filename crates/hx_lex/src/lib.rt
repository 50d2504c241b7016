//! How single words are spelled and read: numbers, cells, sets of cells, players, sizes.
#![tactic(auto)]

mod keyed;
mod marks;
mod texts;
mod values;
mod words;

pub use keyed::{keyed_colour, keyed_mask};
pub use marks::cut;
pub use texts::{TEXT_ROOM, Text};
pub use values::{colour_word, read_digits, read_number, size_of};
pub use words::Words;
