//! What is kept of the nodes that ended, since the lines after them are judged by it.

use hx_board::Colour;
use hx_text::Preamble;

/// What the nodes that ended have said so far: how many they are, and the winner of the last.
#[derive(Clone, Copy, Debug)]
pub struct SoFar {
    pub preamble: Preamble,
    pub count: u32,
    pub winner: Option<Colour>,
}
