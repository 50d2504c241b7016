//! What a template says.

use hx_board::{Colour, Mask, Position, Vertex};
use hx_link::Kind;

/// A claim about a position: that the owner can join two vertices by moves to the cells of the carrier alone, whatever
/// the opponent plays there. The opponent moves first where it is Full, and the owner where it is Semi.
#[derive(Clone, Copy, PartialEq, Eq, Debug)]
pub struct Template {
    pub position: Position,
    pub owner: Colour,
    pub kind: Kind,
    pub a: Vertex,
    pub b: Vertex,
    pub carrier: Mask,
}
