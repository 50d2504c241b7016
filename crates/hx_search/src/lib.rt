//! A set of links closed under the rules: it has all Bases, all Ands, and an Or wherever two ends fork.
//!
//! This is Anshelevich's H-search (2002): connections are combined by his And and Or rules until the rules give nothing
//! new. Of two ends that have a Full link no further Or is looked for, since Ors of all choices of parts would be very
//! many. Useful links come first (hx_reach), so that a set that gets full holds these.
#![tactic(auto, using(crate::proofs::Growing::growing))]

mod ands;
mod bases;
mod closures;
mod ors;
mod parts;
mod tries;

pub use closures::{Closure, close};
