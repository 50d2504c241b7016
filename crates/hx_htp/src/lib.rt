//! A session of the Hex Text Protocol, over anyone who answers who wins.
//!
//! A line goes through three stages, each with a type of its own for what comes out of it. It is read: `words`,
//! `arguments`, `names`, `requests`, `lines`. What it asks for is done: `answerers`, `moves`, `generating`, `sessions`.
//! What comes of that is spelled: `answers`, `texts`. So no proof about the game touches a byte, and none about bytes
//! touches the game.
#![tactic(auto)]

mod answerers;
mod answers;
mod arguments;
mod generating;
mod laws;
mod lines;
mod moves;
mod names;
mod requests;
mod sessions;
mod texts;
mod words;

pub use answerers::{Answerer, Told};
pub use laws::{named_players_win, open_questions_are_counted};
pub use sessions::{Reply, Session};
