//! Strategy trees that prove who wins a position, and their checker.
#![tactic(auto)]

mod answers;
mod checkers;
mod entries;
mod fills;
mod headings;
mod lists;
mod nodes;
mod plain_nodes;
mod rules;
mod steps;
mod trees;
mod turns;

pub use checkers::{Checker, MOST_NODES};
pub use entries::Found;
pub use hx_link::Steps;
pub use lists::{FillSteps, Threats};
pub use nodes::{Heading, Line, Lines, Node, Rule};
pub use plain_nodes::plain;
pub use rules::check_node;
pub use steps::{MOST_STEPS, MOST_THREATS};
pub use trees::{Verdict, check_tree};
