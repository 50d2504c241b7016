//! Positions turned by 180 degrees.
//!
//! A turned board has the same cells, and what touches touches still: the top becomes the bottom and the left the
//! right, so each player's two sides are exchanged. So who wins a position wins the turned one.
#![tactic(auto)]

mod keys;
mod laws;
mod orientations;
mod reversals;
mod turns;

pub use keys::folded_key;
pub use laws::{one_key, turned_joins, turned_keeps};
pub use orientations::{Orientations, key};
pub use turns::{is_turned, turned};
