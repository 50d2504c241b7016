//! A move at the root of a proof, named after the search.
//!
//! A proof by links or by fill steps says that a player wins, and not by which move. Of the nodes that name one most
//! follow from the proof itself, and where they do they are added to its list, after a search and outside its book: so
//! a move that is named takes no slot from a proof. What is added is a guess until the checker has judged it, so
//! nothing here has to be shown of steps.
#![tactic(auto)]

mod added;
mod cells;
mod moves;
mod names;
mod paths;
mod sets;
mod ways_up;

pub use names::name_move;
