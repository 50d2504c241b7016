//! The command `template`: the text of a template is read, decided by playing the local game out, and answered.
#![tactic(auto)]

mod answers;
mod deciding;
mod run;

pub use answers::Answer;
pub use run::run_template;
