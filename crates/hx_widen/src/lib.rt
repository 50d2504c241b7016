//! Proofs at widened positions: a proof that a player wins needs few of the empty cells. So it is stored where the
//! opponent has all others, and serves each position with fewer of these stones.
//!
//! What a proof needs is a guess here. A node by links, by fill steps or by answers to all moves is judged by the
//! checker at the widened position before it is stored. One by a chain, a move or the turned position is right by what
//! was looked up there. Where no entry serves the position then, the proof is stored at the position itself, but for
//! one by the turned position.
#![tactic(auto, using(hx_book::proofs::SightLaws::growth))]

mod answers;
mod chains;
mod fills;
mod known;
mod lines;
mod links;
mod moves;
mod turns;
mod widened;
mod wider;

pub use answers::widen_all;
pub use chains::widen_chain;
pub use fills::widen_fill;
pub use links::widen_links;
pub use moves::widen_move;
pub use turns::widen_turned;
pub use wider::{look_wider_either, store_wider};
