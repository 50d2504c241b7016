//! The texts of positions and of trees: what they are, what they tell, and how they are written.
#![tactic(auto)]

mod entries;
mod heads;
mod laws;
mod spelling;
mod versions;
mod writer;

pub use entries::{Entry, EntryKind};
pub use heads::{Head, Opening};
pub use laws::{
    lines_are_short, one_faulty_line, text_tells_nodes, text_tells_position, written_is_text,
};
pub use versions::{Preamble, Version, version_of};
pub use writer::{write_end, write_heading, write_node, write_position};
