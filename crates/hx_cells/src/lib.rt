//! Loops over the members of a set: over the cells of a set of cells, and over the vertices of a set of vertices.
//!
//! A loop over a set takes its first member, looks at it, and goes on with the set without it. These iterators do that,
//! in the same few machine instructions and without memory, and their clauses say what each such loop needs: the member
//! was in what was left, and is the first of it; and where none comes, none was left.
#![tactic(auto)]

mod cell_iters;
mod vertex_iters;

pub use cell_iters::{CellIter, each_cell};
pub use vertex_iters::{VertexIter, each_vertex};
