//! What a search keeps, beside plain programs: proof numbers, books, and what workers share, of which each answer is
//! worked out from the whole list of events before it.
//!
//! A proof shows that a call gives what its definition says, and not that the definition means what Hex means. So
//! beside each definition stands a program here that works it out in the slowest obvious way, and a test holds the call
//! against it on a table. The tests stand in a crate of their own, so that no crate below is proved again for a change
//! of them.
#![tactic(auto)]

#[cfg(test)]
mod books;
#[cfg(test)]
mod counts;
#[cfg(test)]
mod entries;
#[cfg(test)]
mod made_nodes;
#[cfg(test)]
mod numbers;
#[cfg(test)]
mod plain_books;
#[cfg(test)]
mod states;
#[cfg(test)]
mod wider;
