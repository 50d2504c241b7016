//! One worker: a search over a list of proofs, its last look where units run out, and how its work ends.
//!
//! The search (hx_dfpn) only says where to look. Whatever it believes, a proof is made here from what is certain at
//! that moment: from the links of a set, and from entries that are looked up among the proofs. Which proofs are made is
//! one of two forms: those that serve many positions (`wide.rt`), and plain ones (`plain.rt`).
#![tactic(auto)]

mod benches;
mod closing;
mod each_move;
mod ended;
mod jobs;
mod listed;
mod plain;
mod searches;
mod wide;

pub use benches::{done_of, job_of, new_sets, work_at};
pub use ended::Ended;
pub use jobs::{Job, work};
