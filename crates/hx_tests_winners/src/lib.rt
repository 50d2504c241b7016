//! Who wins: what proofs show, what full searches find, how proof numbers lead a search to it, and the positions that
//! it is asked of.
//!
//! The contracts say what each call answers. They do not say that their definitions mean what the plain game tree
//! means, that memory suffices where it is ample, nor that the generator is the published one. The tests of hx_proof,
//! hx_sweep, hx_pn and hx_demo stand in this crate, so that each of these is proved once, and the crates above them do
//! not wait for tests.
#![tactic(auto)]

#[cfg(test)]
mod drawn_positions;
#[cfg(test)]
mod full_searches;
#[cfg(test)]
mod proof_numbers;
#[cfg(test)]
mod soundness;
