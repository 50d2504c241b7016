//! The command `survey`: who wins after each opening of a board is found, and written as a table of letters.
#![tactic(auto)]

mod answers;
mod run;
mod texts;

pub use answers::Answer;
pub use run::run_survey;
