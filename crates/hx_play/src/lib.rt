//! A player of a tree: it moves so that after each move of its own the tree's winner wins. And the text of a game that
//! it plays.
#![tactic(auto)]

mod kept;
mod laws;
mod players;
mod replies;
mod services;
mod serving;
mod stands;

pub use laws::kept_links_win;
pub use players::Player;
pub use serving::{Served, serve};
