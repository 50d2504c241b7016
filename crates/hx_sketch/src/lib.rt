//! The sketch of a proof: a search that finds out who wins, and makes no proof of it.
//!
//! The search (hx_dfpn) tells what it finds, and here a zone is drafted of it (hx_zones): which stones of the winner's
//! it needs, and which cells must be free of the opponent's. Nothing is stored in the list of proofs. Each rule of a
//! proof has its draft in a file of its own, which says why the zone is enough. A draft that is wrong is no fault of a
//! promise, since nothing is promised of zones.
#![tactic(auto)]

mod answers;
mod chains;
mod fills;
mod judged;
mod links;
mod moves;
mod sketches;

pub use sketches::Sketch;
