//! Cells that cannot matter, or matter less than another one, and steps that fill such cells.
//!
//! Hayward, van Rijswijck, Arneson and Henderson call them dead cells, captured pairs and dominated cells. Here they
//! are recognised; that to fill or to leave out such a cell changes no winner is no matter of this crate.
#![tactic(auto)]

mod dead_cells;
mod dominations;
mod fills;
mod open_neighbours;
mod pairs;

pub use dead_cells::dead;
pub use dominations::{Kill, dominates};
pub use fills::{FillStep, after_fill, fill_one};
pub use open_neighbours::open_around;
pub use pairs::pair;
