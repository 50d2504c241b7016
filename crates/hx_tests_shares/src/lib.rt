//! What workers share, in many threads: a book of proofs, and counts; and hints.
//!
//! The contracts say what each call answers where it returns. They do not say that memory suffices where it is ample,
//! nor that threads which step at the same time all come to an end. So threads step here until a book is full or the
//! units are spent. The tests stand in a crate of their own, so that hx_share and hx_count are proved once.
#![tactic(auto)]

#[cfg(test)]
mod counts;
#[cfg(test)]
mod hints;
#[cfg(test)]
mod made;
#[cfg(test)]
mod shared_books;
