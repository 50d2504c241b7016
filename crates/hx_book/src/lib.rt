//! A book of proofs: nodes of strategy trees, found by their position and the player to move.
#![tactic(auto)]

mod books;
mod buckets;
mod chains;
mod either;
mod growing;
mod plain_books;
mod refusals;
mod trees;
mod wider;

pub use books::{Book, MOST_BUCKETS, MOST_SLOTS};
pub use either::{Either, look_either};
pub use growing::Proofs;
pub use hx_tree::Found;
pub use plain_books::PlainBook;
pub use refusals::NoSlot;
pub use trees::{renamed, tree_of};
pub use wider::Wider;
