//! The links of one player on a position, as stones are put and taken back.
//!
//! A link stays in the set for as long as it may be wanted: a stone that touches its carrier or takes an end only makes
//! it dead, and once the stone is taken back it is live again.
#![tactic(auto)]

mod blocks;
mod chains;
mod derivations;
mod fulls;
mod limits;
mod liveness;
mod log;
mod marks;
mod pairs;
mod passes;
mod plays;
mod renaming;
mod sets;
mod touches;

pub use derivations::Derived;
pub use fulls::{FullIter, FullLink};
pub use limits::MOST_LINKS;
pub use pairs::PairIter;
pub use sets::{Added, LinkSet};
