//! What a player's opponent must answer. It stands apart from `must`, since the prover makes a file of each name and
//! does not tell them apart by case.

use hx_board::Mask;
use hx_tree::{Lines, Threats};

/// The opponent's moves that no threat answers. Hayward, van Rijswijck, Arneson and Henderson call their cells the
/// mustplay region.
#[derive(Drop)]
pub struct Must {
    /// Places of live links between the player's two sides.
    pub threats: Threats,

    /// The empty cells in the carriers of all of these, and so all empty cells where there is none.
    pub cells: Mask,

    /// Lines for cells that the opponent need not try, since another of the cells is better.
    pub under: Lines,
}
