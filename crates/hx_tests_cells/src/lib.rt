//! Dead cells, captured pairs, dominated cells and fill steps, beside walks over the board; and loops over sets.
//!
//! A proof shows that a call gives what its definition says, and not that the definition means what Hex means. So
//! beside the definitions stands a program here that works them out in the slowest obvious way, and a test holds the
//! calls against it on a table. The tests stand in a crate of their own, so that no crate below is proved again for a
//! change of them.
#![tactic(auto)]

#[cfg(test)]
mod killed_cells;
#[cfg(test)]
mod listed_cells;
#[cfg(test)]
mod loops_over_sets;
#[cfg(test)]
mod table_of_cells;
