//! The command `check`: whether the text of a tree proves who wins the position of its root.
//!
//! The lines and nodes are judged in their order while they are read, up to the first fault. It is settled what is to
//! be said before any of it is written, so that a fault of the sink never changes what is said. `Judge` reads a tree up
//! to the line that ends it, for whoever goes on behind it.
#![tactic(auto)]

mod check;
mod faults;
mod judge;
mod judgements;
mod judges;
mod laws;

pub use check::run_check;
pub use faults::{Fault, write_fault};
pub use judgements::Judgement;
pub use judges::{Brought, Judge};
pub use laws::{one_fault, what_is_no_proof_is_refused};
