//! The top call of the program: its commands, from the bytes that come in to the bytes that go out.
#![tactic(auto)]

mod commands;
mod laws;

pub use commands::run;
pub use hx_cmd_demo::{DemoAnswer, WinCounts};
pub use hx_cmd_solve::{Answer, Solution};
pub use hx_finish::Finish;
pub use laws::{
    a_plain_tree_is_of_the_first_version, check_accepts_what_solve_writes, limits,
    what_is_no_position_is_refused,
};

// The commands that make no thread and wait for nobody, each by itself, with what their contracts speak of.
pub use hx_cmd_check::{Fault, Judgement, run_check};
pub use hx_cmd_play::{Refusal, run_play};
pub use hx_cmd_template::{Answer as TemplateAnswer, run_template};

// The texts of positions and trees, read and written.
pub use hx_parse::{Fed, TextFault, TreeFault, TreeReader, read_position};
pub use hx_text::{Version, version_of, write_end, write_heading, write_node, write_position};
