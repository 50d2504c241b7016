//! What is known of positions, as a search asks for it and adds to it.
//!
//! A search says where to look, and whoever knows says what was found there. So a search asks for no proof and no list
//! of proofs, and whoever makes proofs knows of no search: they are written, proved and changed beside one another.
#![tactic(auto)]

mod knows;

pub use knows::{Known, Knows, OfMoves};
