//! What all workers share.

use hx_count::{Counts, Hints};
use hx_ordering::Replies;
use hx_share::Shared;
use hx_zones::Zones;

/// What all workers share: the book, the counts, and what they leave for one another.
#[derive(Drop)]
pub struct Bench<'a> {
    pub shared: &'a Shared,
    pub counts: &'a Counts,
    pub hints: &'a Hints,
    pub replies: &'a Replies,
    pub zones: &'a Zones,
}
