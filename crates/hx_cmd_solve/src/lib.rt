//! The command `solve`: the text of a position is read, the position is searched, and the text of a tree that proves
//! who wins it is written, or why there is none.
#![tactic(auto)]

mod answers;
mod solutions;
mod solving;

pub use answers::Answer;
pub use solutions::Solution;
pub use solving::run_solve;
