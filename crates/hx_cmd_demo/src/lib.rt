//! The command `demo`: positions that a seed draws are solved, each tree is checked, and it is written how many each
//! player wins.
#![tactic(auto)]

mod answers;
mod demos;
mod roots;

pub use answers::{DemoAnswer, WinCounts};
pub use demos::run_demo;
