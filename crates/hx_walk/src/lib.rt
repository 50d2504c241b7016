//! The second walk of a search: real proofs of what zones claim, and of nothing else.
//!
//! When the sketch has found out who wins, this walk goes once more, and only where the tree needs it. At a position
//! that a zone claims it looks at the position where the opponent has all cells that the zone does not need: there a
//! proof is smaller and serves more, and what was dead or captured for the winner where the zone was found is so again.
//! The winner's own links are brought up to date, and no others; zones name the move that wins, or tell which moves are
//! answered by which. What is found is told to whoever makes proofs, and each proof is right for itself, whatever zones
//! said.
//!
//! A zone may claim too much. Then the position is sketched anew, and the walk goes on; a zone that fails again is
//! forgotten; and where that does not help either, the position is searched as it would be without zones.
#![tactic(auto)]

mod answers;
mod claims;
mod descents;
mod passes;
mod repairs;
mod threats;
mod unfilled;
mod visits;
mod walks;
mod wins;

pub use walks::walk_position;
