//! Zones: what a search found out without a proof, in a table that workers share.
//!
//! A proof that a player wins a position uses little of it: some of that player's stones, and cells on which the
//! opponent has no stone. Wherever the player has these stones and the opponent none on these cells, the same player
//! wins, with the same player to move. So what is found out of one position serves many.
//!
//! A zone is a hint. No clause says what the table holds or tells, and no proof rests on it: who uses a zone to make a
//! node has the node judged, and who uses it to say where to look may be wrong.
#![tactic(auto)]

mod adding;
mod bits;
mod finding;
mod forgetting;
mod lists;
mod looks;
mod positions;
mod rooms;
mod serving;
mod tables;
mod telling;
mod words;
mod zone;

pub use positions::{placed, widened};
pub use rooms::zone_blocks;
pub use tables::Zones;
pub use telling::Told;
pub use zone::{Kind, Zone};
