//! Useful links, as far as they go: those that may soon decide a position, of all that the rules give, the smallest
//! first.
//!
//! The rules are those of Anshelevich's H-search (2002), which adds links until the rules give nothing new. That is too
//! much work for each position of a search, so Henderson, Arneson and Hayward (2009) search with a form of it that
//! bounds the work. So does this one: links are made between few ends, few of each two ends, with few Ors of a new
//! link, and only until one decides the position. After a stone only what the stone changed is looked at.
#![tactic(auto)]

mod beginnings;
mod candidates;
mod covers;
mod decisions;
mod ends;
mod pairs;
mod reaches;
mod replays;
mod useful_ands;
mod useful_bases;
mod useful_ors;
mod workspaces;

pub use decisions::{Reached, decided};
pub use reaches::{add_all_useful, reach, reach_with};
pub use workspaces::Workspace;
