//! Positions of Hex: boards, sets of cells, stones, and what is joined in a player's graph.
#![tactic(auto)]

mod cells;
mod colours;
mod floods;
mod graphs;
mod groups;
mod joined_vertices;
mod least_cells;
mod masks;
mod positions;
mod shifts;
mod sizes;
mod tables;
mod touching;
mod vertex_sets;
mod vertices;

pub use cells::{CELLS, Cell};
pub use colours::Colour;
pub use groups::{Groups, chain};
pub use joined_vertices::all_joined;
pub use masks::Mask;
pub use positions::Position;
pub use shifts::neighbour_set;
pub use sizes::Size;
pub use touching::neighbours;
pub use vertex_sets::VertexSet;
pub use vertices::{VERTICES, Vertex};

/// Want of memory: the answer of a call, in this crate or in one above it, that asked for memory and did not get it.
#[derive(Clone, Copy, PartialEq, Eq, Debug)]
pub struct Memory;
