//! Steps, local games, the laws of the game and turned positions, beside plain programs or values that were worked out
//! by hand.
//!
//! A proof shows that a call gives what its definition says, and not that the definition means what Hex means. So
//! beside the definition of the steps, and beside that of the local game, stands a program here that works it out in
//! the slowest obvious way. A test holds the call against it: that of steps on all positions of the smallest boards,
//! that of local games on drawn ones. The tests of hx_link, hx_law, hx_turn and hx_template, and of the laws of local
//! games, stand here, in a crate of their own, so that no crate below needs what they share, nor is proved again for a
//! change of them.
#![tactic(auto)]

#[cfg(test)]
mod laws;
#[cfg(test)]
mod links;
#[cfg(test)]
mod locals;
#[cfg(test)]
mod plain_locals;
#[cfg(test)]
mod plain_steps;
#[cfg(test)]
mod steps;
#[cfg(test)]
mod turns;
