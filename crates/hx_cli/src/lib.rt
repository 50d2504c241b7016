//! The words of the command line: as the program is given them, and which command they are, with which settings.
//!
//! A command is its name, for `demo` a seed, for `survey` the size of a board, and for one that searches its options,
//! in any order and each at most once. Those of `solve` may have the flag `--plain-tree` among them. Words that are
//! spelled in any other way are no command.
#![tactic(auto)]

mod choices;
mod command_line;
mod commands;
mod laws;
mod numbers;
mod options;
mod searches;
mod seeds;
mod settings;
mod sizes;

pub use command_line::words_given;
pub use commands::{Command, Survey, command_of};
pub use laws::one_command;
