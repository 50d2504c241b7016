//! What is found in a list of nodes that serves as a book of proofs. Whoever keeps such a list, alone or for many,
//! answers with it.

use hx_board::Colour;

/// The entry of a position and mover: where it stands, and who wins by it.
#[derive(Clone, Copy, PartialEq, Eq, Debug)]
pub struct Found {
    pub index: u32,
    pub winner: Colour,
}
