//! The command `htp`: a session of the Hex Text Protocol over the lines of a source, from the first line to one of its
//! ends, whose questions a search answers.
#![tactic(auto)]

mod laws;
mod searchers;
mod serving;
mod sessions;
mod talks;

pub use hx_lines::Ended;
pub use laws::{only_lines_above_a_limit_are_too_long, only_lines_within_the_limits_are_done};
pub use serving::serve;
pub use sessions::run_session;
