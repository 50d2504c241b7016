//! What a reach works with, and keeps for the next one.

use crate::candidates::Candidates;
use crate::covers::Caps;
use crate::ends::Ends;
use crate::replays::Replays;
use crate::useful_ands::push_ands;
use crate::useful_ors::{OrLists, push_ors};
use hx_board::Memory;
use hx_link::{Kind, Link};
use hx_linkset::LinkSet;
use std::alloc::Global;

/// Room that `reach_with` works in. A caller may keep it from one call to the next, for whatever set, so that its
/// memory is taken once. Beside its memory the steps last that calls added, and save the search for them where a set
/// comes back to a state.
#[derive(Drop)]
pub struct Workspace {
    pub(crate) ends: Ends,
    pub(crate) or_lists: OrLists,
    pub(crate) candidates: Candidates,
    pub(crate) caps: Caps,
    pub(crate) replays: Replays,
}

impl Workspace {
    /// Empty room, for any set.
    pub fn new(alloc: Global) -> Result<Workspace, Memory> {
        Ok(Workspace {
            ends: Ends::none(),
            or_lists: OrLists::new(alloc)?,
            candidates: Candidates::new(alloc)?,
            caps: Caps::none(),
            replays: Replays::none(alloc),
        })
    }

    /// Makes it ready for a set.
    pub(crate) fn set_up(&mut self, set: &LinkSet) {
        self.ends = Ends::of(set);
        self.caps = Caps::of(set.position());
        self.candidates.clear();
    }

    /// Adds what a new link makes possible, where it is known whether all live links of its kind and ends share a cell.
    /// A cell that all Semi links of two ends have is in all parts of each Or, so there is none.
    pub(crate) fn look_at_new(
        &mut self,
        set: &LinkSet,
        index: u32,
        link: &Link,
        is_shared: bool,
    ) -> Result<(), Memory> {
        if link.kind == Kind::Semi && is_shared {
            return Ok(());
        }
        self.look_at(set, index, link)
    }

    /// Adds what a link makes possible.
    pub(crate) fn look_at(&mut self, set: &LinkSet, index: u32, link: &Link) -> Result<(), Memory> {
        match link.kind {
            Kind::Full => push_ands(set, &self.ends, &mut self.candidates, index, link),
            Kind::Semi => push_ors(set, &mut self.candidates, &mut self.or_lists, index, link),
        }
    }
}
