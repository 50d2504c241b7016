//! Sets of links, what closes them, fill-in, and what must be answered, beside plain programs.
//!
//! A proof shows that a call gives what its definition says, and not that the definition means what Hex means. So
//! beside each definition stands a program here that works it out in the slowest obvious way, and a test holds the call
//! against it on a table. The tests stand in a crate of their own, so that no crate below is proved again for a change
//! of them.
//!
//! The tests of hx_linkset, hx_reach, hx_search and hx_fill stand here and in hx_tests_reaches, since a crate is proved
//! a second time with its tests.
#![tactic(auto)]

#[cfg(test)]
mod closed;
#[cfg(test)]
mod fills;
#[cfg(test)]
mod made;
#[cfg(test)]
mod musts;
#[cfg(test)]
mod plain_sets;
#[cfg(test)]
mod runs_of_sets;
#[cfg(test)]
mod tests;
#[cfg(test)]
mod unders;
