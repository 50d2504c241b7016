//! The steps that make links. Each names what it starts from; what it gives, `result_of` says.
//!
//! They are Anshelevich's: his And rule, once over a vertex that the player owns and once over an empty cell, and his
//! Or rule, on a base of what is joined.

use crate::parts::Parts;
use hx_board::Vertex;

/// A step makes a link. It names earlier links by their places in the list before it.
#[derive(PartialEq, Eq, Debug, Drop)]
pub enum Step {
    /// A Full link of two vertices that are joined already.
    Base { a: Vertex, b: Vertex },

    /// The And rule over a stone or a side of the player: a Full link of the other ends of two Full links that share
    /// it.
    AndStone { left: u32, right: u32 },

    /// The And rule over an empty cell, to which the player has to move: a Semi link of the other ends.
    AndCell { left: u32, right: u32 },

    /// The Or rule: a Full link of the ends of several Semi links, which no one cell can break together.
    Or { parts: Parts },
}
