//! A node as a book keeps it, in little room.
#![tactic(auto)]

mod copies;
mod entries;
mod offers;
mod rules;
mod steps;

pub use entries::Entry;
pub use offers::Offer;
