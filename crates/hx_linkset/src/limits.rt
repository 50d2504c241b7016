//! How much a set of links holds.

/// The most links that a set holds, live or not.
pub const MOST_LINKS: usize = 8192;
