//! The rules of proof are sound: what each of them shows holds in the game tree. The laws are functions that do
//! nothing; what they say stands in their contracts.
#![tactic(auto)]

mod dominations;
mod fills;
mod links;
mod locals;
mod trees;

pub use dominations::under_sound;
pub use fills::fill_sound;
pub use links::link_sound;
pub use locals::{link_local, local_wins};
pub use trees::{node_sound, tree_sound};
