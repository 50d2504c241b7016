//! The machine that workers share, as one thread would run it.
#![tactic(auto)]

mod accounts;
mod books;
mod counts;
mod events;
mod laws;
mod machines;
mod states;

pub use events::{Event, Reply};
pub use hx_tree::Found;
pub use laws::{every_run_goes_on, every_run_grows, every_run_keeps};
pub use machines::{apply, can_happen};
pub use states::State;
