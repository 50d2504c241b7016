//! Lines out of a source, one after the other, through a buffer of fixed size; and the loop of a service that answers
//! them.
#![tactic(auto)]

mod cutters;
mod ended;
mod laws;
mod services;
mod serving;

pub use cutters::{Cut, LONGEST, LineCutter};
pub use ended::Ended;
pub use laws::{cut_lines_come_first, each_cut_is_the_next_line};
pub use services::{Serves, write_reply};
pub use serving::serve;
