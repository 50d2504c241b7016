//! The texts of positions and of trees, read exactly: that of a tree line by line.
#![tactic(auto)]

mod advances;
mod answer_lines;
mod begun_nodes;
mod boards;
mod entry_lines;
mod fill_lines;
mod head_lines;
mod lines;
mod node_steps;
mod places;
mod positions;
mod reader;
mod so_far;
mod step_lines;
mod text_lines;
mod whole_nodes;

pub use boards::{black_stones, read_board, with_white_stones};
pub use lines::read_size;
pub use places::{Fed, TreeFault};
pub use positions::read_position;
pub use reader::TreeReader;
pub use text_lines::{TextFault, TextLines};
