//! What link a step makes.
//!
//! A link says that a player can join two vertices of the board inside a set of cells, whatever the opponent does.
//! Steps make links from what is joined and from earlier links. Here a step gives its link, or none; that what it gives
//! is true is no matter of this crate.
#![tactic(auto)]

mod ands;
mod links;
mod meetings;
mod ors;
mod parts;
mod results;
mod step_lists;
mod steps;

pub use links::{Allowed, Kind, Link, allowed_on, ends_of, is_outside};
pub use parts::{MOST_PARTS, Parts};
pub use results::{result_among, result_of};
pub use step_lists::Steps;
pub use steps::Step;
