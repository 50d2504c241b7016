//! One worker's search: depth first by proof numbers, over links, fill-in and the moves that must be tried.
//!
//! The search only says where to look. It asks whoever knows (hx_known) what is known of a position, and tells what was
//! found there; what is certain is made of that by whoever knows, and nothing that orders the search is in it. The
//! heuristics that say which move comes next are those of hx_ordering; each may be wrong, and stands in a file of its
//! own that says what it brings.
//!
//! Depth-first proof-number search is Nagai's (df-pn, 2002).
#![tactic(auto)]

mod known_moves;
mod left_hints;
mod looks;
mod outcomes;
mod proved_moves;
mod rounds;
mod searches;
mod sets;
mod visits;
mod ways;
mod workers;

pub use rounds::search_position;
pub use sets::{Before, put, take_back};
pub use ways::Way;
pub use workers::{Worker, ask};
