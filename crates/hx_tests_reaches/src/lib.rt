//! How many links `reach` adds, and what it answers, on sets that stones are put on.
//!
//! The contracts say that each link that it adds is right. They do not say which links it adds, and without some kind
//! of link a search would only be slower. So its parts are held by numbers of links; reaches.rt says which part shows
//! in which row.
#![tactic(auto)]

#[cfg(test)]
mod reaches;
