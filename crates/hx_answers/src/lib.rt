//! How one answer is written with its status, the answers that come in the place of any other one, and how an input is
//! read up to a limit.
#![tactic(auto)]

mod counted;
mod input;
mod statuses;

pub use counted::{write_counted, write_numbered};
pub use input::{Unread, read_all};
pub use statuses::{
    OUT_OF_MEMORY, READ_FAULT, TOO_LONG, UNKNOWN, WRITE_FAULT, write_out_of_memory,
    write_read_fault, write_too_long, write_unknown_budget, write_unknown_proofs,
};
